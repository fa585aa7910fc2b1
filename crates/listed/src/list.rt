// The listing of a plan file, whole, on a page that is lent.
ghost use Rattle.std.specs.Prelude.{◌+◌, ◌/◌, ◌≤◌, length, get_or};
ghost use Rattle.plan.specs.Limits.{arc_entries};
ghost use Rattle.plan.specs.Plan.{WellFormed, meant};
ghost use Rattle.plan.specs.Flow.{FirstFlow};
ghost use Rattle.text.specs.Page.{Filled, OnePrinted};
ghost use Rattle.format.specs.Format.{first_edition};
ghost use Rattle.listed.specs.Listing.{PlanListing, Listing, page_size, Marked};

use flow::question::question;
use lines::{print_all_cited, print_arcs, print_none, print_refused, print_set, print_size};
use narrow::request::narrow;
use plan::{Arc, Network, No, Plan};
use reading::read;

// Lent bytes that take every listing.
#[derive(Clone, Copy)]
pub struct Page {}

impl Page {
    pub const SIZE: usize = 26_647;
}

// Lists a plan by the counts of its first flow.
fn list_flow(page: &mut text::Page, network: Network, counts: &[u32])
    requires page { page.old.at + page_size ≤ length page.old.bytes.now }
    requires plan { WellFormed (meant network) }
    requires first { FirstFlow (meant network) (λ k. get_or counts.now k 0) }
    requires counts { length network.arcs.now / arc_entries ≤ length counts.now }
    ensures { OnePrinted (PlanListing (meant network.entry)) page.old page.new }
{
    let mut lows = [0u32; Plan::MOST_ARCS];
    let mut highs = [0u32; Plan::MOST_ARCS];
    let _ = narrow(network, &mut lows, &mut highs);
    let size = network.size();
    print_size(page, size.nodes, size.arcs);
    print_arcs(page, network.arcs, counts, &lows, &highs);
}

// Lists a plan that has no flow, by its shortfall and the marks of a "no".
fn list_no(
    page: &mut text::Page,
    network: Network,
    shortfall: u64,
    node_marks: &[u8],
    arc_marks: &[u32],
)
    requires page { page.old.at + page_size ≤ length page.old.bytes.now }
    requires plan { WellFormed (meant network) }
    requires marks { Marked (meant network) shortfall node_marks.now arc_marks.now }
    ensures { OnePrinted (PlanListing (meant network.entry)) page.old page.new }
{
    let size = network.size();
    print_size(page, size.nodes, size.arcs);
    print_none(page, shortfall);
    print_set(page, node_marks);
    print_all_cited(page, network.arcs, arc_marks);
}

// Lists the plan of an accepted file, which the question does not turn down.
fn list_plan(page: &mut text::Page, network: Network)
    requires page { page.old.at + page_size ≤ length page.old.bytes.now }
    requires plan { WellFormed (meant network) }
    ensures { OnePrinted (PlanListing (meant network.entry)) page.old page.new }
{
    let mut arc_buffer = [0u32; Plan::MOST_ARCS];
    let mut node_buffer = [0u8; Plan::MOST_NODES];
    match question(network, &mut arc_buffer, &mut node_buffer) {
        Ok(()) => list_flow(page, network, &arc_buffer),
        Err(No::Short(value)) => {
            let node_marks = &node_buffer[..network.supplies.len()];
            list_no(page, network, value.unsigned_abs(), node_marks, &arc_buffer);
        }
        Err(No::Refused(_)) => {}
    }
}

// Fills the front of the page with the listing of a file, whatever bytes it has, and gives the listing's
// length. What stands past it stays.
pub fn list(file: &[u8], page: &mut [u8; Page::SIZE]) -> usize
    ensures { Filled (Listing first_edition file.now) page.old page.new result }
{
    let mut supplies = [0i32; Plan::MOST_NODES];
    let mut arcs = [0u32; Plan::MOST_ARCS * Arc::ENTRIES];
    let mut page = text::Page { bytes: page, at: 0 };
    match read(file, &mut supplies, &mut arcs) {
        Ok(size) => {
            let network = Network {
                arcs: &arcs[..size.arcs * Arc::ENTRIES],
                supplies: &supplies[..size.nodes],
            };
            list_plan(&mut page, network);
        }
        Err(refusal) => print_refused(&mut page, refusal.fault.number(), refusal.place),
    }
    page.at
}
