// The plan: its types with their limits. specs/ has document 01 as definitions; proofs/ has the theorems over them and the
// table of worked plans. It uses `numbers`.
#![tactic(auto)]

ghost use Rattle.std.specs.Prelude.{◌≡◌, Bool, ℕ, ◌/◌, ◌<◌, pos, length};
ghost use Rattle.plan.specs.Limits.{most_nodes, most_arcs, most_supply, widest_low, widest_high, arc_entries};
ghost use Rattle.plan.specs.Plan.{arc_in};
ghost use Rattle.plan.specs.Verdict.{number_of, lowest, Accepted};
ghost use Rattle.plan.specs.declared.No.TheVariants.{Refused};

// How large a plan is: its stations and its lanes.
#[derive(Clone, Copy)]
pub struct Plan {
    pub nodes: usize,
    pub arcs: usize,
}

impl Plan {
    pub const MOST_NODES: usize = 64;

    pub const MOST_ARCS: usize = 512;

    pub const MOST_SUPPLY: i32 = 1_000_000;

    // The size of the plan that two lists hold, in whole entries.
    pub fn of(arcs: &[u32], supplies: &[i32]) -> Plan
        ensures { (result.nodes ≡ length supplies.now) × (result.arcs ≡ length arcs.now / arc_entries) }
    {
        Plan {
            nodes: supplies.len(),
            arcs: arcs.len() / Arc::ENTRIES,
        }
    }
}

// A lane from one station to another, and how few and how many it takes: as C lends it, four numbers side by side.
#[repr(C)]
#[derive(Clone, Copy)]
pub struct Arc {
    pub from: u32,
    pub to: u32,
    pub low: u32,
    pub high: u32,
}

impl Arc {
    // An arc is so many numbers of a flat list: from, to, low, high.
    pub const ENTRIES: usize = 4;

    pub const WIDEST_LOW: u32 = 0;

    pub const WIDEST_HIGH: u32 = 65_535;

    pub fn new(from: u32, to: u32, low: u32, high: u32) -> Arc
        ensures { result ≡ record { from = from; to = to; low = low; high = high } }
    {
        Arc {
            from,
            to,
            low,
            high,
        }
    }

    // An arc with the widest range that an arc can have.
    pub fn widest(from: u32, to: u32) -> Arc
        ensures { result ≡ record { from = from; to = to; low = widest_low; high = widest_high } }
    {
        Arc::new(from, to, Arc::WIDEST_LOW, Arc::WIDEST_HIGH)
    }

    // Arc k of a flat list.
    pub fn at(arcs: &[u32], k: usize) -> Arc
        requires { k < length arcs.now / arc_entries }
        ensures { result ≡ arc_in arcs.now k }
    {
        let first = k * Arc::ENTRIES;
        Arc::new(
            arcs[first],
            arcs[first + 1],
            arcs[first + 2],
            arcs[first + 3],
        )
    }
}

// A network as it is lent: its arcs, so many numbers each, and its supplies.
#[derive(Clone, Copy)]
pub struct Network<'a> {
    pub arcs: &'a [u32],
    pub supplies: &'a [i32],
}

impl Network<'_> {
    // How large it is, in whole entries.
    pub fn size(self) -> Plan
        ensures { (result.nodes ≡ length self.entry.supplies.now) × (result.arcs ≡ length self.entry.arcs.now / arc_entries) }
    {
        Plan::of(self.arcs, self.supplies)
    }

    pub fn arc(self, k: usize) -> Arc
        requires { k < length self.arcs.now / arc_entries }
        ensures { result ≡ arc_in self.entry.arcs.now k }
    {
        Arc::at(self.arcs, k)
    }
}

// What an input is turned down for, by document 01's numbers; the header has them under these names.
#[derive(Clone, Copy, PartialEq, Eq)]
pub enum Fault {
    Nodes = 1,
    Arcs = 2,
    Buffer = 3,
    ArcEnd = 4,
    ArcRange = 5,
    Supply = 6,
    SupplySum = 7,
    Missing = 8,
    FileLength = 11,
    FileCheck = 12,
    FileLabel = 13,
    FileContent = 14,
    CountNodes = 15,
    CountDomain = 16,
    CountArcs = 17,
    CountRange = 18,
}

impl Fault {
    pub fn number(self) -> u32
        ensures { result ≡ number_of self }
    {
        self as u32
    }
}

// Why an input is turned down, with the lowest place that is concerned.
#[derive(Clone, Copy, PartialEq, Eq)]
pub struct Refusal {
    pub fault: Fault,
    pub place: usize,
}

impl Refusal {
    pub fn at(fault: Fault, place: usize) -> Refusal
        ensures { result ≡ record { fault = fault; place = place } }
    {
        Refusal { fault, place }
    }

    // What concerns the whole input has place 0.
    pub fn whole(fault: Fault) -> Refusal
        ensures { result ≡ record { fault = fault; place = 0 } }
    {
        Refusal::at(fault, 0)
    }
}

// What is said of an input: that it is accepted, or why not.
pub type Verdict = Result<(), Refusal>;

// Refuses for one fault: the lowest of the first places that it concerns is told.
pub fn refuse<F: Fn(usize) -> bool>(fault: Fault, places: usize, concerns: F) -> Verdict
    requires { (i : ℕ) → i < places → F.pre concerns i }
    ensures { (test : ℕ → Bool) → ((i : ℕ) (told : Bool) → i < places → F.post concerns i told → told ≡ test i) → result ≡ lowest fault test places Accepted }
{
    for i in 0..places {
        if concerns(i) {
            return Err(Refusal::at(fault, i));
        }
    }
    Ok(())
}

// Why a request has nothing to give: there is no flow, and the greatest shortfall is so much; or the input is turned down.
#[derive(Clone, Copy, PartialEq, Eq)]
pub enum No {
    Short(i64),
    Refused(Refusal),
}

impl From<Refusal> for No {
    ghost from_gives = { λ refusal no. no ≡ Refused refusal };

    fn from(refusal: Refusal) -> No {
        No::Refused(refusal)
    }
}

// It does nothing: its contract says that the code's limits are those of the definitions.
pub fn limits_agree()
    ensures nodes { Plan.MOST_NODES ≡ most_nodes }
    ensures arcs { Plan.MOST_ARCS ≡ most_arcs }
    ensures supply { Plan.MOST_SUPPLY ≡ pos most_supply }
    ensures entries { Arc.ENTRIES ≡ arc_entries }
    ensures low { Arc.WIDEST_LOW ≡ widest_low }
    ensures high { Arc.WIDEST_HIGH ≡ widest_high }
{}
