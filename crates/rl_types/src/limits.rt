// The limits of a source and of its machines, by the numbers that are printed.

/// L1: the bytes of one source file, at most.
pub const MOST_SOURCE_BYTES: usize = 4_194_304;

/// L2: how deep includes stand, at most.
pub const MOST_INCLUDES: u64 = 16;

/// L3: the open parentheses, at most.
pub const MOST_PARENTHESES: usize = 128;

/// L4: the nodes of one entry's tree, at most.
pub const MOST_NODES: u32 = 100_000;

/// L5: the depth of a tree, at most.
pub const MOST_DEPTH: u32 = 2_000;

/// L6: the reachable configurations of a node before its pruning, at most.
pub const MOST_CONFIGURATIONS: u32 = 32_767;

/// L7: the conditions of a machine, at most.
pub const MOST_CONDITIONS: usize = 8;

/// L8: the cells of a node, at most: its configurations times the key classes times 2 to the number of its conditions.
pub const MOST_CELLS: u32 = 4_194_304;

/// L9: the names of a machine, of its actions as of its instantiations, at most.
pub const MOST_NAMES: u32 = 65_535;

/// L10: the statements of an action at the outer level up to the first transfer or break, at most.
pub const MOST_OUTER_STATEMENTS: u32 = 4;

/// L11: the states of a machine with a certificate, at most.
pub const MOST_CERTIFIED_STATES: u32 = 256;

/// L12: the bytes of an input that has no end of its own, at most.
pub const MOST_INPUT_BYTES: u64 = 1_099_511_627_776;
