//! Why a text is refused.

ghost use Rattle.std.specs.Prelude.{◌≡◌};
ghost use Rattle.ss_engine.specs.Refusals.{refusal_line, refusal_name, refusal_number, words_of_checker, words_of_lexer, words_of_parser, words_of_refusal, words_of_tables};

use ss_check::CheckError;
use ss_lex::LexError;
use ss_parse::ParseError;
use ss_tables_rules::TableError;

/// Why a text is refused, with the line in which that shows.
#[derive(Clone, Copy, Debug, PartialEq, Eq)]
pub enum Refusal {
    /// For its tokens.
    Lexed(LexError),
    /// The tokens spell no program.
    Parsed(ParseError),
    /// For what it declares.
    Declared(TableError),
    /// For what it does with its names.
    Used(CheckError),
    /// The program has more than 1,048,576 instructions, and its tree more than 16,384 nodes.
    CodeTooLong,
    /// Memory was refused.
    Memory,
}

// The number, the name and the line of what makes no tokens.
fn words_of_lexer(error: &LexError) -> (u32, &str, u32)
    ensures { words_of_lexer error.now ≡ (result.0, result.1.now, result.2) }
{
    match error {
        LexError::TooLong(line) => (31, "TooLong", line.0),
        LexError::NotAscii(line) => (32, "NotAscii", line.0),
        LexError::BadNumber(line) => (33, "BadNumber", line.0),
        LexError::OpenText(line) => (34, "OpenText", line.0),
        LexError::AlphaTooLong(line) => (35, "AlphaTooLong", line.0),
        LexError::PictureCut(line) => (36, "PictureCut", line.0),
        LexError::NameTooLong(line) => (37, "NameTooLong", line.0),
        LexError::Memory => (0, "Memory", 0),
    }
}

// The number, the name and the line of what spells no program.
fn words_of_parser(error: &ParseError) -> (u32, &str, u32)
    ensures { words_of_parser error.now ≡ (result.0, result.1.now, result.2) }
{
    match error {
        ParseError::Syntax(line) => (41, "Syntax", line.0),
        ParseError::TooDeep(line) => (42, "TooDeep", line.0),
        ParseError::Memory => (0, "Memory", 0),
    }
}

// The number, the name and the line of what is declared.
fn words_of_tables(error: &TableError) -> (u32, &str, u32)
    ensures { words_of_tables error.now ≡ (result.0, result.1.now, result.2) }
{
    match error {
        TableError::Twice(line) => (51, "Twice", line.0),
        TableError::RealMode(line) => (52, "RealMode", line.0),
        TableError::UnknownClass(line) => (53, "UnknownClass", line.0),
        TableError::UnknownSet(line) => (54, "UnknownSet", line.0),
        TableError::NoOwner(line) => (55, "NoOwner", line.0),
        TableError::NoMember(line) => (56, "NoMember", line.0),
        TableError::RankKey(line) => (57, "RankKey", line.0),
        TableError::TallyTwice(line) => (58, "TallyTwice", line.0),
        TableError::TooMany(line) => (59, "TooMany", line.0),
        TableError::TieKey(line) => (60, "TieKey", line.0),
        TableError::Memory => (0, "Memory", 0),
    }
}

// The number, the name and the line of what is done with names.
fn words_of_checker(error: &CheckError) -> (u32, &str, u32)
    ensures { words_of_checker error.now ≡ (result.0, result.1.now, result.2) }
{
    match error {
        CheckError::NoMain(line) => (71, "NoMain", line.0),
        CheckError::NoEventRoutine(line) => (72, "NoEventRoutine", line.0),
        CheckError::Mode(line) => (73, "Mode", line.0),
        CheckError::Arguments(line) => (74, "Arguments", line.0),
        CheckError::Subscript(line) => (75, "Subscript", line.0),
        CheckError::NotAssignable(line) => (76, "NotAssignable", line.0),
        CheckError::Fields(line) => (77, "Fields", line.0),
        CheckError::StartPlace(line) => (78, "StartPlace", line.0),
        CheckError::Unknown(line) => (79, "Unknown", line.0),
        CheckError::Memory => (0, "Memory", 0),
    }
}

impl Refusal {
    // The number, the name and the line.
    fn words(&self) -> (u32, &str, u32)
        ensures { words_of_refusal self.now ≡ (result.0, result.1.now, result.2) }
    {
        match self {
            Refusal::Lexed(error) => words_of_lexer(error),
            Refusal::Parsed(error) => words_of_parser(error),
            Refusal::Declared(error) => words_of_tables(error),
            Refusal::Used(error) => words_of_checker(error),
            Refusal::CodeTooLong => (81, "CodeTooLong", 0),
            Refusal::Memory => (0, "Memory", 0),
        }
    }

    /// The number that the refusal is reported by; 0 for memory.
    pub fn number(&self) -> u32
        ensures { result ≡ refusal_number self.now }
    {
        self.words().0
    }

    /// The name that the refusal is reported by.
    pub fn name(&self) -> &str
        ensures { result.now ≡ refusal_name self.now }
    {
        self.words().1
    }

    /// The line that the refusal is reported at; 0 where it has none.
    pub fn line(&self) -> u32
        ensures { result ≡ refusal_line self.now }
    {
        self.words().2
    }
}
