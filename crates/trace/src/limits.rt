// The limits of document 01, each named once, and the sizes that follow from them.
pub const ROW_LIMIT: usize = 1024;

pub const EVENT_LIMIT: usize = 512;

pub const AGENT_LIMIT: usize = 64;

// As the numbers of rows, events and agents are compared with them.
pub const ROWS: u16 = ROW_LIMIT as u16;

pub const EVENTS: u16 = EVENT_LIMIT as u16;

pub const AGENTS: u16 = AGENT_LIMIT as u16;

// The contents part; the rows begin behind it.
pub const ROWS_AT: usize = 20;

// The bytes of a row, or of an event.
pub const ITEM: usize = 8;

pub const LONGEST_FILE: usize = ROWS_AT + ITEM * ROW_LIMIT + ITEM * EVENT_LIMIT;
