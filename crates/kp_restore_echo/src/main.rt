//! Reads a table as `iptables-restore` takes it and prints it again, or with `-n` a batch as
//! `iptables-restore --noflush` takes it; with `-6` those of `ip6tables-restore`. A text that is none
//! ends with status 1, and its first bad line is told. Words that don't fit end with status 2, and
//! want of memory with status 3.
#![tactic(auto)]

use kp_base::{Family, Text};
use kp_restore::{
    TextFault, batch_text, batch_text_six, read_batch, read_batch_six, read_table, read_table_six,
    table_text, table_text_six,
};
use std::alloc::Global;
use std::env;
use std::io::{self, Read, Write};
use std::process::ExitCode;

/// What a text is read as.
#[derive(Clone, Copy)]
struct Asked {
    family: Family,
    is_batch: bool,
}

fn main(rt: HostRuntime) -> io::Result<ExitCode> {
    let alloc = rt.alloc();
    let words: Vec<String> = env::args(&rt)?.collect(alloc)?;
    let Some(asked) = asked_by(words.as_slice()) else {
        eprintln!(rt; "usage: kp_restore_echo [-6] [-n] <FILE")?;
        return Ok(ExitCode::from(2));
    };
    let mut text = Vec::new(alloc);
    rt.reader().read_to_end(&mut text)?;
    match echoed(alloc, asked, text.as_slice()) {
        Ok(printed) => {
            io::writer(&rt).write_all(printed.as_str().as_bytes())?;
            Ok(ExitCode::SUCCESS)
        }
        Err(TextFault::BadText { line }) => {
            eprintln!(rt; "line {line} is bad")?;
            Ok(ExitCode::FAILURE)
        }
        Err(TextFault::NoMemory(_)) => Ok(ExitCode::from(3)),
    }
}

/// What the words after the program's name ask for.
fn asked_by(words: &[String]) -> Option<Asked> {
    let mut asked = Asked {
        family: Family::V4,
        is_batch: false,
    };
    for word in words.iter().skip(1) {
        match word.as_str() {
            "-6" => asked.family = Family::V6,
            "-n" => asked.is_batch = true,
            _ => return None,
        }
    }
    Some(asked)
}

/// The text of what a text is read as.
fn echoed(alloc: Global, asked: Asked, text: &[u8]) -> Result<Text, TextFault> {
    match asked.family {
        Family::V4 if asked.is_batch => Ok(batch_text(alloc, &read_batch(alloc, text)?)?),
        Family::V4 => Ok(table_text(alloc, &read_table(alloc, text)?)?),
        Family::V6 if asked.is_batch => Ok(batch_text_six(alloc, &read_batch_six(alloc, text)?)?),
        Family::V6 => Ok(table_text_six(alloc, &read_table_six(alloc, text)?)?),
    }
}
