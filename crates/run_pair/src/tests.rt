use crate::beside::run_beside;
use std::sync::OnceLock;
use std::test::Fail;

/// Two closures run at once: each waits for what the other one sets.
#[test]
fn two_closures_meet(rt: HostRuntime) -> Result<(), Fail> {
    let (here, there) = (OnceLock::new(), OnceLock::new());
    let mut first = || {
        let _ = there.set(&rt, 1u8);
        *here.wait(&rt)
    };
    let mut second = || {
        let _ = here.set(&rt, 2u8);
        *there.wait(&rt)
    };
    let (a, b) = run_beside(&rt, &mut first, &mut second)?;
    assert_eq!(rt; a, 2);
    assert_eq!(rt; b, 1);
    Ok(())
}
