// `Row`: a line of the C program. The runtime says what each call does.

/// A call of the runtime that expects what the machine answered.
#[derive(Clone, Copy)]
pub enum Call {
    /// A load of a value.
    Load,
    /// A load of a value by a child.
    Peek,
    /// An sbrk that returns an address.
    Grow,
    /// A write() of bytes, of which so many are copied.
    In,
    /// A read() of bytes, of which so many are copied.
    Out,
    /// An mmap that is granted or refused.
    Map,
    /// Bytes of a file.
    Show,
    /// A child's exit status.
    Reap,
    /// The frames in use at the beginning.
    Held,
    /// The frames in use.
    Used,
}

/// A call that expects what the machine answered.
#[derive(Drop)]
pub struct StepRow {
    pub call: Call,
    /// The number of the line of the script with which the step begins.
    pub step: usize,
    /// The arguments between the step and what is expected, each with a comma and a blank after it.
    pub arguments: String,
}

/// A line of the C program.
#[derive(Drop)]
pub enum Row {
    /// Text with its line end, which expects nothing of the machine.
    Text(String),
    Step(StepRow),
}

/// The lines of a function of the C program: what a process does.
#[derive(Drop)]
pub struct Life {
    pub rows: Vec<Row>,
    /// The row of the parent's function in which this process got its last turn.
    pub last_turn: Option<usize>,
}
