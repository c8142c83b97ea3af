//! Plans that are made, read and copied.

use crate::note::plan_of_a_note;
use crate::same::same;
use fm_msg::Profile;
use fm_program::{Scopes, Slot};
use std::test::Fail;

// A copy with expressions, lists and deformations is played in `fm_way_tests`; `strand/cuts` looks
// at the spots of its expressions.
#[test]
fn a_plan_is_made_and_copied(rt: HostRuntime) -> Result<(), Fail> {
    let alloc = rt.alloc();
    let copy = plan_of_a_note(alloc)?.copy(alloc)?;
    assert!(rt; copy.processes() == 1);
    assert!(rt; copy.profile() == Profile::first());
    let counts = (
        copy.levels(0).len(),
        copy.predecessors(0).len(),
        copy.warps().len(),
    );
    same(&rt, &counts, &(0, 0, 0));
    Ok(())
}

#[test]
fn a_scope_is_read_from_its_innermost_loop_outwards(rt: HostRuntime) -> Result<(), Fail> {
    let mut scopes = Scopes::new(rt.alloc());
    let outer = scopes.push(Slot::Frame { frame: 0 }, 0)?;
    let inner = scopes.push(Slot::Fixed { value: 2 }, outer)?;
    same(&rt, &scopes.len(), &3);
    assert!(rt; scopes.innermost(inner) == Some((Slot::Fixed { value: 2 }, outer)));
    assert!(rt; scopes.innermost(outer) == Some((Slot::Frame { frame: 0 }, 0)));
    assert!(rt; scopes.innermost(0).is_none());
    Ok(())
}
