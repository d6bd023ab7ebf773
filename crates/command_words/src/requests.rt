//! The requests of a command line.

/// The names of the files of `run`.
#[derive(Clone, Copy)]
pub struct FileNames<'a> {
    pub policy: &'a str,
    pub capture: &'a str,
    pub out: &'a str,
    pub report: &'a str,
    /// `--graph`: the text of graphs that were written by hand, if there is one.
    pub graph: Option<&'a str>,
}

/// The names of the files of `plan`.
#[derive(Clone, Copy)]
pub struct PlanNames<'a> {
    pub policy: &'a str,
    /// `--graph`: the text of graphs that were written by hand, if there is one.
    pub graph: Option<&'a str>,
}

/// The names of the two files of `flows`.
#[derive(Clone, Copy)]
pub struct FlowNames<'a> {
    pub capture: &'a str,
    pub out: &'a str,
}

/// How the results of the branches of a stage come together. The output is the same either way.
#[derive(Clone, Copy)]
pub enum Way {
    /// `inbox`: over links, from which the mergers take.
    Inbox,
    /// `board`: on a board, where each branch puts its results and each merger polls.
    Board,
}

/// The options of a run. If an option isn't given, its field has the default value.
#[derive(Clone, Copy)]
pub struct RunOptions {
    /// `--mergers`: the number of mergers, 1 to 16, by default 2.
    pub mergers: u32,
    /// `--burst`: the greatest number of packets of a burst, 1 to 65,536, by default 1,024.
    pub burst: u32,
    /// `--merge`: how the results of the branches of a stage come together, `inbox` or `board`, by default
    /// [`Way::Inbox`].
    pub way: Way,
}

/// The input from which the capture of the demonstration is made.
#[derive(Clone, Copy)]
pub struct DemoInput {
    /// The seed of its draws.
    pub seed: u64,
    /// The number of its packets, 1 to 1,000,000.
    pub count: u32,
}

/// The options of counting flows. If an option isn't given, its field has the default value.
#[derive(Clone, Copy)]
pub struct FlowOptions {
    /// `--workers`: the number of workers, each of which counts its own flows, 1 to 16, by default 2.
    pub workers: u32,
    /// `--burst`: the greatest number of packets of a burst, 1 to 65,536, by default 1,024.
    pub burst: u32,
}

/// The names and the option of `why POLICY CAPTURE REPORT [--record N]`.
#[derive(Clone, Copy)]
pub struct WhyRequest<'a> {
    pub policy: &'a str,
    pub capture: &'a str,
    pub report: &'a str,
    /// `--record`: the record whose trace is asked for, 1 to 4,294,967,295.
    pub record: Option<u32>,
}

/// A command with its names and options.
#[derive(Clone, Copy)]
pub enum Command<'a> {
    /// `run POLICY CAPTURE OUT REPORT [--mergers N] [--burst N] [--merge WAY] [--graph NAME]`
    Run(FileNames<'a>, RunOptions),
    /// `plan POLICY [--graph NAME]`
    Plan(PlanNames<'a>),
    /// `demo SEED COUNT [--mergers N] [--burst N] [--merge WAY]`
    Demo(DemoInput, RunOptions),
    /// `flows CAPTURE OUT [--workers N] [--burst N]`
    Flows(FlowNames<'a>, FlowOptions),
}
