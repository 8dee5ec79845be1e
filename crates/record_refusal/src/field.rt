// Where the fields of a record stand among its numbers.
use machine::place::WINDOW;

// The count of state words; before it stands that of instruction words (record_numbers::count).
pub const STATE_COUNT: usize = 1;

// The values of the places before the window, and of the window.
pub const VALUES: usize = 2;

pub const WINDOW_VALUES: usize = VALUES + WINDOW;

// Their marks: past the window's values, so many numbers further on.
pub const MARKS: usize = WINDOW_VALUES;

pub const WINDOW_MARKS: usize = MARKS + WINDOW;

// The base and the instruction words: past the window's marks too, twice as many further on.
pub const BASE: usize = WINDOW_MARKS;

pub const LIST: usize = BASE + 1;
