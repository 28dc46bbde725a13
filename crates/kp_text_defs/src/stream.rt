//! Streams of lines.
ghost use Rattle.std.specs.Prelude.{◌≡◌};
ghost use Rattle.kp_text_defs.specs.StreamNames.{stream_name};

use kp_base::Text;

/// The stream that a line belongs to.
#[derive(Drop)]
pub enum Stream {
    /// The stream of the lines that name none, or name `main`.
    Main,
    /// Another stream, of this name.
    Named(Text),
}

impl Stream {
    /// The stream's name.
    pub fn name(&self) -> &str
        ensures { result.now ≡ stream_name self.now }
    {
        match self {
            Stream::Main => "main",
            Stream::Named(name) => name.as_str(),
        }
    }
}
