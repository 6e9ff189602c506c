//! What a sans-IO engine waits for, what it reports of its input, and why its calls are rejected.
use go_base::Colour;
use go_board::PlayFault;
use thiserror::Error;

/// What an engine waits for.
#[derive(Clone, Copy, Debug, PartialEq, Eq, Drop)]
pub enum Wait {
    /// Nothing: it reads on.
    Nothing,
    /// A choice for this colour.
    Choice(Colour),
    /// The answer to a line whose command isn't in the table.
    Answer,
}

/// What came of a chunk of input.
#[derive(Clone, Copy, Debug, PartialEq, Eq, Drop)]
pub enum Event {
    /// All bytes were used, and none of them completed a line that has a word.
    More,
    /// A line was answered, and the reply is ready.
    Reply,
    /// A line asks for a choice for this colour.
    Asked(Colour),
    /// A line whose command isn't in the table asks for its answer.
    Other,
    /// The session has ended, and no byte was used.
    Ended,
}

/// What an engine did with a chunk of its input.
#[derive(Clone, Copy, Debug, PartialEq, Eq, Drop)]
pub struct StepsFed {
    /// How many bytes of the chunk it used.
    pub used: usize,
    /// What came of these bytes.
    pub event: Event,
}

/// Why a choice isn't made, in the order of checking.
#[derive(Clone, Copy, Debug, PartialEq, Eq, Drop, Error)]
pub enum ChoiceFault {
    /// None is being waited for.
    #[error("no choice is asked for")]
    NotAsked,
    /// It is a vertex that isn't legal, for this cause.
    #[error("the move is not legal: {0}")]
    Illegal(PlayFault),
}

/// Why an answer isn't given, in the order of checking.
#[derive(Clone, Copy, Debug, PartialEq, Eq, Drop, Error)]
pub enum AnswerFault {
    /// None is being waited for.
    #[error("no answer is asked for")]
    NotAsked,
    /// Its text isn't allowed in a reply.
    #[error("no reply may have this text")]
    BadText,
}

/// The text can't be a name or a version: it has more than 200 bytes, or isn't allowed in a reply.
#[derive(Clone, Copy, Debug, PartialEq, Eq, Drop, Error)]
#[error("the text is longer than 200 bytes, or no reply may have it")]
pub struct NoTitle;

/// Why a command isn't added, in the order of checking.
#[derive(Clone, Copy, Debug, PartialEq, Eq, Drop, Error)]
pub enum CommandFault {
    /// Its name is empty, or has more than 32 bytes.
    #[error("the name has no byte, or more than 32")]
    BadLength,
    /// A byte of its name is `#`, or not from 33 to 126.
    #[error("a byte of the name is `#`, or is none of 33 to 126")]
    BadByte,
    /// Its name has only digits, as an id has.
    #[error("the name has digits alone")]
    OnlyDigits,
    /// The table has a command of this name.
    #[error("the table has a command of this name")]
    InTable,
    /// A command of this name was added before.
    #[error("a command of this name was added before")]
    AddedBefore,
    /// The engine has 32 custom commands already.
    #[error("the engine has 32 own commands")]
    TooMany,
}
