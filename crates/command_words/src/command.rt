/// What a command asks for.
#[derive(Clone, Copy, PartialEq, Eq, Debug, Drop)]
pub enum Work<'a> {
    /// To judge the source in the file of that name.
    Check { file: &'a str },
    /// To judge it and print all that the judgement rests on.
    Prove { file: &'a str },
    /// To judge what the file `text` says of the source in `file`.
    Verify { file: &'a str, text: &'a str },
    /// To judge the sample of that many procedures, 1 to 4,000.
    Sample { count: u32 },
}

/// A command.
#[derive(Clone, Copy, PartialEq, Eq, Debug, Drop)]
pub struct Command<'a> {
    pub work: Work<'a>,
    /// How many words the lines of a search may cost, 1 to 100,000,000.
    pub budget: u64,
}
