//! Copies.

use crate::fault::TrialFault;
use sea_base::Duplicate;
use sea_history::Plan;
use sea_object::{Objects, Reply};
use sea_script::parse;
use std::alloc::Global;
use std::test::Fail;

// Each of the nineteen operations.
const SCRIPT: &str = "1 touch a ; write a 0 x41 ; zero a 1 1 ; setattr a k x01 ; setattr a m x
1 omap_setkeys a k x02 m x03 ; omap_rmkeys a z ; omap_rmkeyrange a x z 1
1 touch b ; truncate b 3 ; remove b
1 touch c ; rmattr c k ; rmattrs c ; omap_clear c
1 read a 0 9 ; stat a ; getattr a k ; getattrs a ; omap_get a k ; omap_list a 64 k ; list 64 a
1 remove z
1 omap_list a 1 ; list 1 ; stat z
";

// The reply to a copy of a request.
fn reply(objects: &mut Objects, plan: &Plan, number: u32) -> Result<Reply, TrialFault> {
    if plan.clients() == 0 || plan.count(1) < number || number == 0 {
        return Err(TrialFault::TooMany);
    }
    let request = plan.request(1, number).copy()?;
    Ok(objects.apply(&request)?)
}

#[test]
fn copies_are_answered_alike(rt: HostRuntime) -> Result<(), Fail> {
    let script = parse(rt.alloc(), SCRIPT.as_bytes(), false)?;
    let mut objects = Objects::new(rt.alloc());
    for number in 1..=7 {
        let mut copy = objects.copy()?;
        let answered = reply(&mut objects, &script.plan, number)?;
        assert_eq!(rt;
            reply(&mut copy, &script.plan, number)?,
            answered,
            "{number}"
        );
        assert_eq!(rt; answered.copy()?, answered, "{number}");
    }
    Ok(())
}
