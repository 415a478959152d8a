// Places of states.

// A state of the machine of an entry: the entry's number, from 1, and the state's number there, from 0.
#[derive(Clone, Copy, Debug, PartialEq, Eq, Hash)]
pub(crate) struct Place {
    pub entry: u32,
    pub state: u32,
}
