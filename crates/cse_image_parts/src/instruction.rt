//! The instructions of the machine.

/// An opcode. In brackets the name that listings of code use.
#[derive(Clone, Copy)]
pub enum Op {
    /// A constant (NUM).
    Number = 1,
    /// A special value (SPC).
    Special = 2,
    /// A text (TXT).
    Text = 3,
    /// The value of a local (LDL).
    LoadLocal = 4,
    /// A value into a local (STL).
    StoreLocal = 5,
    /// The value of a global (LDG).
    LoadGlobal = 6,
    /// A value into a global (STG).
    StoreGlobal = 7,
    /// The sum (ADD).
    Add = 8,
    /// The difference (SUB).
    Subtract = 9,
    /// The product (MUL).
    Multiply = 10,
    /// The truncated quotient (QUO).
    Quotient = 11,
    /// The remainder (REM).
    Remainder = 12,
    /// The negative (NEG).
    Negate = 13,
    /// A relation of two numbers (CMP).
    Compare = 14,
    /// A relation of two texts (TCM).
    CompareText = 15,
    /// Both conditions hold (AND).
    And = 16,
    /// One of two conditions holds (OR).
    Or = 17,
    /// The condition fails (NOT).
    Not = 18,
    /// The number is a special value (ISS).
    IsSpecial = 19,
    /// On to a place (JMP).
    Jump = 20,
    /// To a place where the condition fails (JZ).
    JumpUnless = 21,
    /// A number as an index (IDX).
    Index = 22,
    /// A number as an occurrence (OCC).
    Occurrence = 23,
    /// The row of a number in a value set, as an index (ROW).
    Row = 24,
    /// The occurrence of the loop around (CUR).
    CurrentOccurrence = 25,
    /// The number of an occurrence (CUN).
    OccurrenceNumber = 26,
    /// How many occurrences a record has (TOT).
    TotalOccurrences = 27,
    /// The value of a numeric id item (IDN).
    IdNumber = 28,
    /// The value of an alpha id item (IDT).
    IdText = 29,
    /// The value of a numeric item (ITN).
    ItemNumber = 30,
    /// The value of an alpha item (ITT).
    ItemText = 31,
    /// A value into a numeric item (STN).
    StoreNumber = 32,
    /// A value into an alpha item (STT).
    StoreText = 33,
    /// The value of an array's cell (ALD).
    LoadCell = 34,
    /// A value into an array's cell (AST).
    StoreCell = 35,
    /// The number has a row in a value set (INV).
    InSet = 36,
    /// A message (MSG).
    Message = 37,
    /// An imputation (IMP).
    Impute = 38,
    /// A call of a routine (CAL).
    Call = 39,
    /// The end of the call (RET).
    Return = 40,
    /// A bracket of so many turns (LPC).
    LoopCount = 41,
    /// A bracket with a turn for each occurrence (LPO).
    LoopOccurrences = 42,
    /// The end of a bracket's turn (END).
    End = 43,
    /// Out of the bracket (BRK).
    Break = 44,
    /// Drops a value (POP).
    Pop = 45,
}

/// An instruction: an opcode and its three fields. A step of the machine is one instruction.
#[derive(Clone, Copy)]
pub struct Instr {
    pub op: Op,
    pub a: u8,
    pub b: u16,
    pub c: u32,
}
