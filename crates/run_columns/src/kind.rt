//! What steps do, in letters and in words.
ghost use Rattle.std.specs.Prelude.{◌≡◌};
ghost use Rattle.run_columns.specs.StepKinds.{all_kinds, is_marked, is_same, letter_of, meaning_of, number_of, verb_of};

use crate::mark::StepKind;

impl StepKind {
    /// Each of them once, in the order in which a turn has them.
    pub fn all() -> [StepKind; 12]
        ensures { result ≡ all_kinds }
    {
        [
            StepKind::StoreWrite,
            StepKind::CountWrite,
            StepKind::Snapshot,
            StepKind::Propose,
            StepKind::Enter,
            StepKind::Look,
            StepKind::Stand,
            StepKind::Withdraw,
            StepKind::Ask,
            StepKind::LoadView,
            StepKind::LoadValue,
            StepKind::Decide,
        ]
    }

    /// Whether it has the same letter as another: whether it is the other.
    pub fn is_same(self, other: StepKind) -> bool
        ensures { result ≡ is_same self other }
    {
        self.number() == other.number()
    }

    fn number(self) -> u8
        ensures { result ≡ number_of self }
    {
        match self {
            StepKind::StoreWrite => 0,
            StepKind::CountWrite => 1,
            StepKind::Snapshot => 2,
            StepKind::Propose => 3,
            StepKind::Enter => 4,
            StepKind::Look => 5,
            StepKind::Stand => 6,
            StepKind::Withdraw => 7,
            StepKind::Ask => 8,
            StepKind::LoadView => 9,
            StepKind::LoadValue => 10,
            StepKind::Decide => 11,
        }
    }

    /// The letter on a step's square.
    #[tactic(auto, unfolding(crate::specs::StepKinds::letter_of))]
    pub fn letter(self) -> &'static [u8]
        ensures { result.now ≡ letter_of self }
    {
        match self {
            StepKind::StoreWrite => b"W",
            StepKind::CountWrite => b"+",
            StepKind::Snapshot => b"S",
            StepKind::Propose => b"V",
            StepKind::Enter => b"1",
            StepKind::Look => b"?",
            StepKind::Stand => b"2",
            StepKind::Withdraw => b"0",
            StepKind::Ask => b"A",
            StepKind::LoadView => b"G",
            StepKind::LoadValue => b"r",
            StepKind::Decide => b"D",
        }
    }

    /// What the letter stands for.
    #[tactic(auto, unfolding(crate::specs::StepKinds::meaning_of))]
    pub fn meaning(self) -> &'static [u8]
        ensures { result.now ≡ meaning_of self }
    {
        match self {
            StepKind::StoreWrite => b"store a write",
            StepKind::CountWrite => b"count it",
            StepKind::Snapshot => b"snapshot",
            StepKind::Propose => b"propose it",
            StepKind::Enter => b"enter",
            StepKind::Look => b"look",
            StepKind::Stand => b"leave, it stands",
            StepKind::Withdraw => b"leave, too late",
            StepKind::Ask => b"ask",
            StepKind::LoadView => b"get the view",
            StepKind::LoadValue => b"read a value",
            StepKind::Decide => b"store decision",
        }
    }

    /// What a simulator does, up to the words that say for which process.
    #[tactic(auto, unfolding(crate::specs::StepKinds::verb_of))]
    pub fn verb(self) -> &'static [u8]
        ensures { result.now ≡ verb_of self }
    {
        match self {
            StepKind::StoreWrite => b" stores the write of ",
            StepKind::CountWrite => b" counts the write of ",
            StepKind::Snapshot => b" takes a snapshot for ",
            StepKind::Propose => b" proposes its snapshot for ",
            StepKind::Enter => b" enters the agreement on ",
            StepKind::Look => b" looks who is in the agreement on ",
            StepKind::Stand => b" keeps its proposal and leaves the agreement on ",
            StepKind::Withdraw => b" withdraws its proposal and leaves the agreement on ",
            StepKind::Ask => b" asks what was agreed on for ",
            StepKind::LoadView => b" loads the chosen proposal for ",
            StepKind::LoadValue => b" loads a value for ",
            StepKind::Decide => b" stores the decision of ",
        }
    }

    /// Whether it changes the agreement or decides.
    pub fn is_marked(self) -> bool
        ensures { result ≡ is_marked self }
    {
        matches!(
            self,
            StepKind::Enter | StepKind::Stand | StepKind::Withdraw | StepKind::Decide
        )
    }
}
