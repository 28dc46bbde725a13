//! Lines that are known from their format.
ghost use Rattle.kp_worked_texts.specs.Answers as answers;
ghost use Rattle.kp_worked_texts.specs.Live as live;
ghost use Rattle.kp_worked_texts.specs.Refusals as refusals;
ghost use Rattle.kp_worked_texts.specs.Slices as slices;

/// Answers, explained answers and trails.
pub fn worked_answers()
    ensures verdicts { answers.Verdicts }
    ensures sync { answers.Sync }
    ensures usage { answers.Usage }
    ensures by_draws { answers.ByDraws }
    ensures by_affinity { answers.ByAffinity }
    ensures shut { answers.ShutDoors }
    ensures trails { answers.Trails }
{}

/// Lines of a live run and of the generator.
pub fn worked_live_lines()
    ensures events { live.Events }
    ensures record { live.Record }
    ensures sync { live.Sync }
    ensures last { live.Final }
    ensures clash { live.FinalClash }
    ensures totals { live.Totals }
{}

/// Each refusal of a line.
pub fn worked_refusals()
    ensures lines { refusals.Lines }
    ensures clashes { refusals.Clashes }
    ensures quoted { refusals.Quoted }
    ensures members { refusals.Members }
{}

/// Slices and their endpoints.
pub fn worked_slices()
    ensures lines { slices.Lines }
    ensures entries { slices.Entries }
{}
