// Why a call is refused. Each refusal has the number that document 01 or 02 gives it.
ghost use Rattle.std.specs.Prelude.{◌≡◌};
ghost use Rattle.settings.specs.Refusals.{settings_number, state_number, input_number, store_number, number};
ghost use Rattle.settings.specs.declared.refusal.Refusal.TheVariants.{Store};
ghost use Rattle.settings.specs.declared.refusal.StoreRefusal.TheVariants.{Damaged};

#[derive(Clone, Copy)]
pub enum SettingsRefusal {
    InvalidDimension,
    InvalidConfig,
}

impl SettingsRefusal {
    fn number(self) -> u32
        ensures { result ≡ settings_number self }
    {
        match self {
            SettingsRefusal::InvalidDimension => 1,
            SettingsRefusal::InvalidConfig => 2,
        }
    }
}

#[derive(Clone, Copy)]
pub enum StateRefusal {
    InvalidState,
    AlreadyBuilt,
    NotBuilt,
    EmptyIndex,
    NoVectorHeld,
}

impl StateRefusal {
    fn number(self) -> u32
        ensures { result ≡ state_number self }
    {
        match self {
            StateRefusal::InvalidState => 4,
            StateRefusal::AlreadyBuilt => 5,
            StateRefusal::NotBuilt => 6,
            StateRefusal::EmptyIndex => 12,
            StateRefusal::NoVectorHeld => 19,
        }
    }
}

#[derive(Clone, Copy)]
pub enum InputRefusal {
    DimensionMismatch,
    NonFiniteInput,
    LabelLengths,
    AnswerTooShort,
    BadRecord,
    SettingsOrder,
    FileTooLong,
    UnknownDocument,
}

impl InputRefusal {
    fn number(self) -> u32
        ensures { result ≡ input_number self }
    {
        match self {
            InputRefusal::DimensionMismatch => 7,
            InputRefusal::NonFiniteInput => 8,
            InputRefusal::LabelLengths => 9,
            InputRefusal::AnswerTooShort => 14,
            InputRefusal::BadRecord => 16,
            InputRefusal::SettingsOrder => 17,
            InputRefusal::FileTooLong => 18,
            InputRefusal::UnknownDocument => 24,
        }
    }
}

#[derive(Clone, Copy)]
pub enum StoreRefusal {
    ListTooShort,
    VectorsFull,
    EntriesFull,
    NodesFull,
    Damaged,
    TextFull,
}

impl StoreRefusal {
    fn number(self) -> u32
        ensures { result ≡ store_number self }
    {
        match self {
            StoreRefusal::ListTooShort => 3,
            StoreRefusal::VectorsFull => 10,
            StoreRefusal::EntriesFull => 11,
            StoreRefusal::NodesFull => 13,
            StoreRefusal::Damaged => 15,
            StoreRefusal::TextFull => 20,
        }
    }
}

#[derive(Clone, Copy)]
pub enum Refusal {
    Settings(SettingsRefusal),
    State(StateRefusal),
    Input(InputRefusal),
    Store(StoreRefusal),
}

impl Refusal {
    // The number that is returned.
    pub fn number(self) -> u32
        ensures { result ≡ number self }
    {
        match self {
            Refusal::Settings(r) => r.number(),
            Refusal::State(r) => r.number(),
            Refusal::Input(r) => r.number(),
            Refusal::Store(r) => r.number(),
        }
    }
}

// A search that meets damage is refused as one of a damaged store.
impl From<walk::Damaged> for Refusal {
    ghost from_gives = { λ _ refusal. refusal ≡ Store Damaged };

    fn from(_damage: walk::Damaged) -> Refusal {
        Refusal::Store(StoreRefusal::Damaged)
    }
}
