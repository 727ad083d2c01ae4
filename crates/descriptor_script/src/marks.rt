//! Whether a list of tickets can be freed: a walk over the list, with a mark for each ticket.
//! It comes before any set moves, and memory for the marks was reserved with the tickets.
ghost use Rattle.std.specs.Prelude.{◌≡◌, ◌↔◌, IsTrue, is_some, length};
ghost use Rattle.descriptor_script.specs.Inner.Marks.{AreClear, AreOnlyAt};
ghost use Rattle.descriptor_script.specs.Sessions.Tickets.{AreHeldOnce, set_at};

use gpu_descriptor::DescriptorSet;

/// Whether the ticket has a set.
fn is_held<S>(sets: &[Option<DescriptorSet<S>>], ticket: usize) -> bool
    ensures { result ≡ is_some (set_at sets.now ticket) }
{
    match sets.get(ticket) {
        Some(slot) => slot.is_some(),
        None => false,
    }
}

/// Marks the tickets up to the first that has no set or is marked. Whether there is none such.
pub(crate) fn mark_each<S>(
    sets: &[Option<DescriptorSet<S>>],
    marks: &mut [bool],
    tickets: &[usize],
) -> bool
    requires long { length marks.old ≡ length sets.now }
    requires clear { AreClear marks.old }
    ensures answer { IsTrue result ↔ AreHeldOnce sets.now tickets.now }
    ensures only { AreOnlyAt tickets.now marks.new }
{
    for ticket in tickets {
        if !is_held(sets, *ticket) || marks[*ticket] {
            return false;
        }
        marks[*ticket] = true;
    }
    true
}

/// Takes the marks of these tickets away.
pub(crate) fn clear_each(marks: &mut [bool], tickets: &[usize])
    requires { AreOnlyAt tickets.now marks.old }
    ensures { AreClear marks.new }
{
    for ticket in tickets {
        if *ticket < marks.len() {
            marks[*ticket] = false;
        }
    }
}
