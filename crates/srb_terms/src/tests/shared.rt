// The types that threads pass on and share.
use crate::{Boxed, Cause, Diag, Items, Name, Project, Steps, Words};
use std::marker::Brand;

fn is_shared<T: Send + Sync>() {}

fn is_sent<T: Send>() {}

#[test]
fn threads_may_share_them() {
    is_shared::<Words>();
    is_shared::<Name>();
    is_shared::<Items<Diag>>();
    is_shared::<Boxed<Diag>>();
    is_shared::<Project>();
    is_shared::<Cause>();
    is_sent::<Steps<Brand>>();
}
