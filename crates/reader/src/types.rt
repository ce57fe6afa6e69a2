// The plain data of the reader. What its types promise stands with their methods: in statement, lexeme and refusal.

// A value with its place: the byte offset in the text where it begins.
#[derive(Clone, Copy, Debug, PartialEq, Eq)]
pub struct Placed<T> {
    pub place: usize,
    pub item: T,
}

// Why a call of the software refuses. docs/REFUSALS.md has the whole table.
#[derive(Clone, Copy, Debug, PartialEq, Eq)]
pub enum Refusal {
    Overlong = 1,
    StrayByte = 2,
    StrangeWord = 3,
    TooBig = 4,
    OutOfOrder = 5,
    TooDeep = 6,
    TooMany = 7,
    TreeFull = 8,
    NoSheet = 9,
    FlatFull = 11,
    CodeFull = 12,
    JumpOpen = 13,
    NotOpen = 14,
    BadDraft = 15,
    PageFull = 16,
    NoRegister = 21,
    OverTop = 22,
    SmallStore = 31,
    ManyInputs = 32,
    LongTick = 33,
    LongShow = 34,
}

// A token of the text. Words and numbers are parts of the text itself.
#[derive(Clone, Copy, Debug)]
pub enum Token<'a> {
    Word(&'a [u8]),
    Number(&'a [u8]),
    Assign,
    Unequal,
    Plus,
    Minus,
    Semicolon,
}

// A word of the text: its part of the text, and where that part lies. An empty one has length 0. The length is that of the
// part; both were asked for, and callers read both.
#[derive(Clone, Copy, Debug)]
pub struct Word<'a> {
    pub start: usize,
    pub length: usize,
    pub bytes: &'a [u8],
}

// What a token says, apart from the bytes that say it.
#[derive(Clone, Copy, Debug, PartialEq, Eq)]
pub enum Lexeme {
    Loop,
    While,
    Do,
    End,
    Number(u32),
    Register(usize),
    Assign,
    Unequal,
    Plus,
    Minus,
    Semicolon,
}

// The kind of a statement; only a zero record has the kind Zero.
#[derive(Clone, Copy, Debug, PartialEq, Eq)]
pub enum Kind {
    Zero = 0,
    Plus = 1,
    Minus = 2,
    Loop = 3,
    While = 4,
}

// A statement as a record. `source` is the register in the head of a LOOP or WHILE; `end` is the index
// after the statement and its body. What a kind lacks is 0, and a record of kind Zero is none, as the
// published form of records has it. They lie in lent memory, with no heap for a tree.
#[derive(Clone, Copy, Debug, PartialEq, Eq)]
pub struct Statement {
    pub kind: Kind,
    pub target: usize,
    pub source: usize,
    pub constant: u32,
    pub end: usize,
}

// The statement of a record that holds none.
pub const ZERO_STATEMENT: Statement = Statement {
    kind: Kind::Zero,
    target: 0,
    source: 0,
    constant: 0,
    end: 0,
};

// What memory for records holds where it holds none.
pub const ZERO_RECORD: Placed<Statement> = Placed {
    place: 0,
    item: ZERO_STATEMENT,
};
