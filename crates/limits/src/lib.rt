#![tactic(auto)]

// Document 01's limits, each named once for the code; specs/Limits.antt names them for the definitions.
pub const SIGNALS: u32 = 64;

pub const TASKS: u32 = 16;

pub const PRIORITY: u32 = 16;

pub const PORTS: u32 = 8;

pub const TRANSITIONS: u32 = 32;

pub const ACTIONS: u32 = 32;

pub const ORDER: u32 = 32;

pub const STATES: u32 = 16;

// How many of them a state has, as the lengths of its arrays.
pub const ALL_SIGNALS: usize = SIGNALS as usize;

pub const ALL_TASKS: usize = TASKS as usize;

pub const ALL_PORTS: usize = PORTS as usize;

pub const TIME: u32 = 1_000_000;

pub const LAST_INSTANT: u32 = 999_999;

pub const PLAN_BYTES: usize = 20_564;

pub const EVENT_BYTES: usize = 16_384;

// An event: "Records of four words".
pub const EVENT_SIZE: usize = 16;

pub const TOP_VALUE: u64 = 4_294_967_295;

// The program's trace: "with a trace of 15,000 words".
pub const TRACE_WORDS: usize = 15_000;
