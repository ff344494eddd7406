// What belongs to `T.untyped` alone, in an empty table.
use crate::is_within;
use srb_terms::{Boxed, Name, NoMemory, Ty, World};

#[test]
fn an_untyped_array_holds_more_than_any_other(rt: HostRuntime) -> Result<(), NoMemory> {
    let alloc = rt.alloc();
    let world = World::new(alloc);
    let class = Ty::Class(Name::from_str(alloc, "A")?);
    let untyped = Ty::Arr(Boxed::new(alloc, Ty::Untyped)?);
    let typed = Ty::Arr(Boxed::new(alloc, class)?);
    assert!(rt; is_within(true, &world, &typed, &untyped));
    assert!(rt; !is_within(true, &world, &untyped, &typed));
    assert!(rt; is_within(false, &world, &untyped, &typed));
    Ok(())
}
