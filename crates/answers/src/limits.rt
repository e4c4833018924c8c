// The limits of a description and of what is lent with it.

// The most boards of a site.
pub const MOST_BOARDS: usize = 16;

// The most relation lines of a description.
pub const MOST_LINES: usize = 128;

// The most kind lines of a description.
pub const MOST_KINDS: usize = 16;

// The most words of an expression.
pub const MOST_EXPRESSION_WORDS: usize = 15;

// The most ways of a kind line.
pub const MOST_WAYS: usize = 8;

// The words of a header: the relation lines begin after it.
pub const HEADER_WORDS: usize = 6;

// The words of a line before its expression or its ways.
pub const LINE_WORDS: usize = 3;

// The words of the longest description.
pub const MOST_WORDS: usize = HEADER_WORDS
    + MOST_LINES * (LINE_WORDS + MOST_EXPRESSION_WORDS)
    + MOST_KINDS * (LINE_WORDS + MOST_WAYS);

// The most cells of a table.
pub const MOST_CELLS: usize = MOST_BOARDS * MOST_BOARDS;

// The most pairs of boards p < q.
pub const MOST_PAIRS: usize = MOST_BOARDS * (MOST_BOARDS - 1) / 2;
