ghost use Rattle.std.specs.Prelude.{◌≡◌, map};
ghost use Rattle.ss_lex.specs.Parts.{part, part_for};
ghost use Rattle.ss_lex.specs.Words.{word_in_table, reserved};

use crate::word::Word;

/// A row of a table: the spelling of a reserved word, and this word.
type WordRow = (&'static [u8], Word);

// The reserved words, by their spelling, in the order of their bytes, in four parts.
static A_TO_D: [(&[u8], Word); 29] = [
    (b"A", Word::A),
    (b"ABS.F", Word::AbsF),
    (b"ACCUMULATE", Word::Accumulate),
    (b"ADD", Word::Add),
    (b"AFTER", Word::After),
    (b"ALL", Word::All),
    (b"ALPHA", Word::Alpha),
    (b"ALWAYS", Word::Always),
    (b"AN", Word::An),
    (b"AND", Word::And),
    (b"AS", Word::As),
    (b"AT", Word::At),
    (b"BEFORE", Word::Before),
    (b"BELONG", Word::Belong),
    (b"BREAK", Word::Break),
    (b"BY", Word::By),
    (b"CALL", Word::Call),
    (b"CALLED", Word::Called),
    (b"CANCEL", Word::Cancel),
    (b"CASE", Word::Case),
    (b"CAUSE", Word::Schedule),
    (b"CREATE", Word::Create),
    (b"DATA", Word::Data),
    (b"DAY", Word::Unit),
    (b"DAYS", Word::Unit),
    (b"DEFINE", Word::Define),
    (b"DESTROY", Word::Destroy),
    (b"DIV.F", Word::DivF),
    (b"DO", Word::Do),
];

static E_TO_L: [(&[u8], Word); 42] = [
    (b"EACH", Word::Each),
    (b"ELSE", Word::Else),
    (b"EMPTY", Word::Empty),
    (b"END", Word::End),
    (b"ENDED", Word::Ended),
    (b"ENTITIES", Word::Entities),
    (b"EQ", Word::Eq),
    (b"EQUAL", Word::Equal),
    (b"EQUALS", Word::Equals),
    (b"EVENT", Word::Event),
    (b"EVERY", Word::Every),
    (b"FIFO", Word::Fifo),
    (b"FILE", Word::File),
    (b"FIND", Word::Find),
    (b"FIRST", Word::First),
    (b"FOLLOWS", Word::Follows),
    (b"FOR", Word::For),
    (b"FOUND", Word::Found),
    (b"FROM", Word::From),
    (b"GE", Word::Ge),
    (b"GIVEN", Word::Given),
    (b"GIVING", Word::Giving),
    (b"GREATER", Word::Greater),
    (b"GT", Word::Gt),
    (b"HAS", Word::Has),
    (b"HIGH", Word::High),
    (b"IF", Word::If),
    (b"IN", Word::In),
    (b"INCLUDE", Word::Include),
    (b"INTEGER", Word::Integer),
    (b"IS", Word::Is),
    (b"LAST", Word::Last),
    (b"LE", Word::Le),
    (b"LESS", Word::Less),
    (b"LET", Word::Let),
    (b"LIFO", Word::Lifo),
    (b"LIKE", Word::Like),
    (b"LINE", Word::Line),
    (b"LINES", Word::Line),
    (b"LOOP", Word::Loop),
    (b"LOW", Word::Low),
    (b"LT", Word::Lt),
];

static M_TO_R: [(&[u8], Word); 37] = [
    (b"MAIN", Word::Main),
    (b"MAX.F", Word::MaxF),
    (b"MAXIMUM", Word::Maximum),
    (b"MAY", Word::May),
    (b"MEAN", Word::Mean),
    (b"MIN.F", Word::MinF),
    (b"MINIMUM", Word::Minimum),
    (b"MOD.F", Word::ModF),
    (b"MODE", Word::Mode),
    (b"NE", Word::Ne),
    (b"NONE", Word::None),
    (b"NORMALLY", Word::Normally),
    (b"NOT", Word::Not),
    (b"NOTICE", Word::Notice),
    (b"NOTICES", Word::Notices),
    (b"NOW", Word::Now),
    (b"NUMBER", Word::Number),
    (b"OF", Word::Of),
    (b"OR", Word::Or),
    (b"ORDER", Word::Order),
    (b"OTHERWISE", Word::Else),
    (b"OUTPUT", Word::Output),
    (b"OWNS", Word::Owns),
    (b"PERMANENT", Word::Permanent),
    (b"PREAMBLE", Word::Preamble),
    (b"PRINT", Word::Print),
    (b"PRIORITY", Word::Priority),
    (b"RANKED", Word::Ranked),
    (b"READ", Word::Read),
    (b"REAL", Word::Real),
    (b"REGARDLESS", Word::Always),
    (b"REMOVE", Word::Remove),
    (b"REPEAT", Word::Loop),
    (b"RESET", Word::Reset),
    (b"RETURN", Word::Return),
    (b"REVERSE", Word::Reverse),
    (b"ROUTINE", Word::Routine),
];

static S_TO_Y: [(&[u8], Word); 33] = [
    (b"SAVING", Word::Saving),
    (b"SCHEDULE", Word::Schedule),
    (b"SET", Word::Set),
    (b"SETS", Word::Set),
    (b"SIMULATION", Word::Simulation),
    (b"SKIP", Word::Skip),
    (b"START", Word::Start),
    (b"STOP", Word::Stop),
    (b"SUBTRACT", Word::Subtract),
    (b"SUM", Word::Sum),
    (b"SYSTEM", Word::System),
    (b"TALLY", Word::Tally),
    (b"TEMPORARY", Word::Temporary),
    (b"THAN", Word::Than),
    (b"THE", Word::The),
    (b"THEN", Word::Then),
    (b"THIS", Word::This),
    (b"THUS", Word::Thus),
    (b"TIES", Word::Ties),
    (b"TIME.A", Word::TimeA),
    (b"TIME.V", Word::TimeV),
    (b"TO", Word::To),
    (b"TOTALS", Word::Totals),
    (b"UNIT", Word::Unit),
    (b"UNITS", Word::Unit),
    (b"UNLESS", Word::Unless),
    (b"UNTIL", Word::Until),
    (b"VARIABLE", Word::Variable),
    (b"VARIABLES", Word::Variable),
    (b"WHEN", Word::When),
    (b"WHILE", Word::While),
    (b"WITH", Word::With),
    (b"YIELDING", Word::Yielding),
];

// The rows from A to D.
#[tactic(auto, unfolding(crate::specs::Words::reserved))]
fn a_to_d() -> &'static [WordRow]
    ensures { map (λ row. (row.0.now, row.1)) result.now ≡ part 0 29 }
{
    &A_TO_D
}

// The rows from E to L.
#[tactic(auto, unfolding(crate::specs::Words::reserved))]
fn e_to_l() -> &'static [WordRow]
    ensures { map (λ row. (row.0.now, row.1)) result.now ≡ part 29 42 }
{
    &E_TO_L
}

// The rows from M to R.
#[tactic(auto, unfolding(crate::specs::Words::reserved))]
fn m_to_r() -> &'static [WordRow]
    ensures { map (λ row. (row.0.now, row.1)) result.now ≡ part 71 37 }
{
    &M_TO_R
}

// The rows from S to Y.
#[tactic(auto, unfolding(crate::specs::Words::reserved))]
fn s_to_y() -> &'static [WordRow]
    ensures { map (λ row. (row.0.now, row.1)) result.now ≡ part 108 33 }
{
    &S_TO_Y
}

// The rows that have a word with this first byte, if it is reserved.
fn rows_for(first: u8) -> &'static [WordRow]
    ensures { map (λ row. (row.0.now, row.1)) result.now ≡ part_for first }
{
    if first < b'E' {
        a_to_d()
    } else if first < b'M' {
        e_to_l()
    } else if first < b'S' {
        m_to_r()
    } else {
        s_to_y()
    }
}

/// The reserved word with this spelling.
pub fn reserved_word(spelling: &[u8]) -> Option<Word>
    ensures { result ≡ word_in_table reserved spelling.now }
{
    let Some(first) = spelling.first() else {
        return None;
    };
    let rows = rows_for(*first);
    match rows.binary_search_by_key(&spelling, |row| row.0) {
        Ok(i) => Some(rows[i].1),
        Err(_) => None,
    }
}
