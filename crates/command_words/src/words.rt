//! What each command is asked for: the names of its files, numbers and places.

/// The names of the files of `run`.
#[derive(Clone, Copy)]
pub struct RunFiles<'a> {
    pub plan: &'a str,
    pub readings: &'a str,
    pub report: &'a str,
    pub transcript: &'a str,
}

/// `run PLAN READINGS REPORT TRANSCRIPT [WORKERS]`.
#[derive(Clone, Copy)]
pub struct RunWords<'a> {
    pub files: RunFiles<'a>,
    /// 1 to 16.
    pub workers: u32,
}

/// `ring PLAN READINGS WIDTH REPORT TRANSCRIPT [WORKERS]`.
#[derive(Clone, Copy)]
pub struct RingWords<'a> {
    pub files: RunFiles<'a>,
    /// Meters at most so many places away on the ring of their group share masks: 1 to 128.
    pub width: u8,
    /// 1 to 16.
    pub workers: u32,
}

/// The names of the files of `resume`.
#[derive(Clone, Copy)]
pub struct ResumeFiles<'a> {
    pub plan: &'a str,
    pub readings: &'a str,
    pub cut: &'a str,
    pub report: &'a str,
    pub transcript: &'a str,
}

/// `resume PLAN READINGS CUT REPORT TRANSCRIPT [WORKERS]`.
#[derive(Clone, Copy)]
pub struct ResumeWords<'a> {
    pub files: ResumeFiles<'a>,
    /// 1 to 16.
    pub workers: u32,
}

/// The names of the files of `registers`.
#[derive(Clone, Copy)]
pub struct RegisterFiles<'a> {
    pub plan: &'a str,
    pub readings: &'a str,
    pub report: &'a str,
    pub transcript: &'a str,
    pub words: &'a str,
}

/// `registers K PLAN READINGS REPORT TRANSCRIPT WORDS [WORKERS]`.
#[derive(Clone, Copy)]
pub struct RegisterWords<'a> {
    pub files: RegisterFiles<'a>,
    /// 2 to 8.
    pub registers: u8,
    /// 1 to 16.
    pub workers: u32,
}

/// The names of the files of `audit`.
#[derive(Clone, Copy)]
pub struct AuditFiles<'a> {
    pub transcript: &'a str,
    pub report: &'a str,
}

/// The names of the files of `twin`.
#[derive(Clone, Copy)]
pub struct TwinFiles<'a> {
    pub plan: &'a str,
    pub readings: &'a str,
    pub other: &'a str,
    pub transcript: &'a str,
    pub masks: &'a str,
}

/// `ringtwin PLAN READINGS OTHER WIDTH TRANSCRIPT MASKS`.
#[derive(Clone, Copy)]
pub struct RingTwinWords<'a> {
    pub files: TwinFiles<'a>,
    /// Meters at most so many places away on the ring of their group share masks: 1 to 128.
    pub width: u8,
}

/// `pooled KNOWN PLAN READINGS OTHER TRANSCRIPT MASKS`.
#[derive(Clone, Copy)]
pub struct PooledWords<'a> {
    /// It names meters, as `known_sets` reads them.
    pub known: &'a str,
    pub files: TwinFiles<'a>,
}

/// A size of made files.
#[derive(Clone, Copy)]
pub struct Size {
    pub seed: u64,
    /// 1 to 256.
    pub groups: u64,
    /// Of each group: 2 to 256.
    pub meters: u64,
    /// 1 to 4096.
    pub rounds: u64,
}

/// `make SEED GROUPS METERS ROUNDS PLAN READINGS`.
#[derive(Clone, Copy)]
pub struct MakeWords<'a> {
    pub size: Size,
    pub plan: &'a str,
    pub readings: &'a str,
}

/// `load SEED GROUPS METERS ROUNDS WORKERS [TRANSCRIPT]`.
#[derive(Clone, Copy)]
pub struct LoadWords<'a> {
    pub size: Size,
    /// 1 to 16.
    pub workers: u32,
    pub transcript: Option<&'a str>,
}

/// The names of the files of `convert`.
#[derive(Clone, Copy)]
pub struct ConvertFiles<'a> {
    pub old: &'a str,
    pub transcript: &'a str,
}

/// The names of the files of `public`.
#[derive(Clone, Copy)]
pub struct PublicFiles<'a> {
    pub plan: &'a str,
    pub public: &'a str,
}

/// `parts PLAN G PREFIX`. The prefix begins the names of new files, and may be empty.
#[derive(Clone, Copy)]
pub struct PartsWords<'a> {
    pub plan: &'a str,
    /// Below 256.
    pub group: u16,
    pub prefix: &'a str,
}

/// The names of the files of `inspect`.
#[derive(Clone, Copy)]
pub struct InspectFiles<'a> {
    pub public: &'a str,
    pub transcript: &'a str,
    pub report: &'a str,
}

/// The names of the files of `collect`.
#[derive(Clone, Copy)]
pub struct CollectFiles<'a> {
    pub public: &'a str,
    pub journal: &'a str,
    pub report: &'a str,
}

/// The names of the files of `meter`.
#[derive(Clone, Copy)]
pub struct MeterFiles<'a> {
    pub meter: &'a str,
    pub journal: &'a str,
}

/// A period of rounds: from `from` up to below `until`.
#[derive(Clone, Copy)]
pub struct Period {
    /// Below `until`.
    pub from: u32,
    /// At most 4096.
    pub until: u32,
}

/// `G R I`: a meter of a group in a round, all counted from 0.
#[derive(Clone, Copy)]
pub struct PlaceWords {
    /// Below 256.
    pub group: u16,
    /// Below 4096.
    pub round: u32,
    pub meter: u8,
}

/// The names of the files of `bill`.
#[derive(Clone, Copy)]
pub struct BillFiles<'a> {
    pub plan: &'a str,
    pub readings: &'a str,
    pub bills: &'a str,
}

/// `bill PLAN READINGS FROM UNTIL BILLS`.
#[derive(Clone, Copy)]
pub struct BillWords<'a> {
    pub files: BillFiles<'a>,
    pub period: Period,
}

/// The names of the files of `hide`.
#[derive(Clone, Copy)]
pub struct HideFiles<'a> {
    pub plan: &'a str,
    pub readings: &'a str,
    pub transcript: &'a str,
    pub other: &'a str,
}

/// `hide PLAN READINGS TRANSCRIPT FROM UNTIL G R I OTHER`.
#[derive(Clone, Copy)]
pub struct HideWords<'a> {
    pub files: HideFiles<'a>,
    pub period: Period,
    pub place: PlaceWords,
}

/// What the words ask for.
#[derive(Clone, Copy)]
pub enum Command<'a> {
    /// Runs the values of the plan file and the readings file.
    Run(RunWords<'a>),
    /// Runs them with masks between neighbours on a ring alone.
    Ring(RingWords<'a>),
    /// Goes on from a cut transcript of the plan file and the readings file.
    Resume(ResumeWords<'a>),
    /// Runs the values of the plan file and of a readings file with several registers.
    Registers(RegisterWords<'a>),
    /// Checks a report against a transcript.
    Audit(AuditFiles<'a>),
    /// Shows the mask words under which other readings give the same transcript.
    Twin(TwinFiles<'a>),
    /// Shows the same for masks between neighbours on a ring alone.
    RingTwin(RingTwinWords<'a>),
    /// Shows the same against meters that share what they know.
    Pooled(PooledWords<'a>),
    /// Makes the two files of a size.
    Make(MakeWords<'a>),
    /// Runs the files of a size in memory.
    Load(LoadWords<'a>),
    /// Brings a transcript of version 1 up to version 2.
    Convert(ConvertFiles<'a>),
    /// Writes a plan without its keys and lanes.
    Public(PublicFiles<'a>),
    /// Writes what each meter of a group has of a plan, and begins its journal.
    Parts(PartsWords<'a>),
    /// Is a head end without keys, which answers lines and keeps a journal.
    Collect(CollectFiles<'a>),
    /// Is one meter, which answers lines and keeps a journal.
    Meter(MeterFiles<'a>),
    /// Checks a transcript against the public plan, and a report against the transcript.
    Inspect(InspectFiles<'a>),
    /// Writes the bills of a period.
    Bill(BillWords<'a>),
    /// Looks for readings that hide one behind the bills and the transcript.
    Hide(HideWords<'a>),
    /// Says the usage.
    Help,
    /// Says the program's name and version.
    Version,
}
