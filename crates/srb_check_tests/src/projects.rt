//! The reports of projects of some files.

use srb_check::{fresh, push_report};
use srb_terms::{Name, Project};
use std::alloc::Global;
use std::process::Abort;
use std::test::Fail;

/// The path of a file and its text.
type Source = (&'static str, &'static str);

/// The project of these files.
fn project_of(alloc: Global, sources: &[Source]) -> Result<Project, Fail> {
    let mut project = Project::new(alloc);
    for (path, source) in sources {
        let path = Name::from_str(alloc, path)?;
        project.put(path, source.as_bytes().to_vec(alloc)?)?;
    }
    Ok(project)
}

/// The report of these files.
fn reported(alloc: Global, sources: &[Source]) -> Result<Vec<u8>, Fail> {
    let project = project_of(alloc, sources)?;
    let mut report = Vec::new(alloc);
    for (path, source) in sources {
        let errors = fresh(alloc, &project, path)?;
        push_report(&mut report, path, source.as_bytes(), errors.as_slice())?;
    }
    Ok(report)
}

fn all_reported<R: Abort + AllocGlobal>(rt: &R, rows: &[(&[Source], &str)]) -> Result<(), Fail> {
    for (sources, expected) in rows {
        let report = reported(rt.alloc(), sources)?;
        assert!(rt; report.as_slice() == expected.as_bytes(), "{expected}");
    }
    Ok(())
}

#[test]
fn files_declare_for_each_other(rt: HostRuntime) -> Result<(), Fail> {
    all_reported(
        &rt,
        &[
            (
                &[("a", "module M\nend\n"), ("b", "class C < M\nend\n")],
                "b:1:11: 9007 M cannot be inherited\n",
            ),
            (
                &[("a", "class A\nend\n"), ("b", "A\nB\n")],
                "b:2:1: 5002 constant B not found\n",
            ),
            (
                &[("a", "class A\nend\n"), ("b", "module A\nend\n")],
                "b:1:8: 9004 A is already a class\n",
            ),
            (&[("a", "A::B\n"), ("b", "class A\n  B = 1\nend\n")], ""),
        ],
    )
}

#[test]
fn files_that_declare_nothing(rt: HostRuntime) -> Result<(), Fail> {
    all_reported(
        &rt,
        &[
            (
                &[("a", "# typed: ignore\nclass A\nend\n"), ("b", "A\n")],
                "b:1:1: 5002 constant A not found\n",
            ),
            (
                &[("a", "class A\nend\n)"), ("b", "A\n")],
                "a:3:1: 2001 syntax error\nb:1:1: 5002 constant A not found\n",
            ),
        ],
    )
}

#[test]
fn errors_stand_in_order(rt: HostRuntime) -> Result<(), Fail> {
    all_reported(
        &rt,
        &[
            (
                &[("a", "class C < X\nend\nmodule C\nend\nY\n")],
                "a:1:11: 5002 constant X not found\na:3:8: 9004 C is already a class\na:5:1: 5002 constant Y not found\n",
            ),
            (
                &[(
                    "a",
                    "# typed: true\nT.reveal_type(1)\nX\nT.reveal_type(1)\n",
                )],
                "a:2:1: 7014 type is Integer\na:3:1: 5002 constant X not found\na:4:1: 7014 type is Integer\n",
            ),
        ],
    )
}

#[test]
fn types_go_by_the_facts_of_all_files(rt: HostRuntime) -> Result<(), Fail> {
    all_reported(
        &rt,
        &[
            (
                &[
                    (
                        "a",
                        "class A\n  def m\n    @x = T.let(1, Integer)\n  end\nend\n",
                    ),
                    (
                        "b",
                        "# typed: true\nclass A\n  def n\n    T.reveal_type(@x)\n    @x = nil\n  end\nend\n",
                    ),
                ],
                "b:4:5: 7014 type is Integer\nb:5:10: 7007 expected Integer, found NilClass\n",
            ),
            (
                &[
                    (
                        "a",
                        "# typed: true\nclass A\n  extend T::Sig\n  sig { returns(Integer) }\n  def m\n    \"a\"\n  end\nend\nT.reveal_type(A.new.m)\n",
                    ),
                    (
                        "b",
                        "# typed: true\nclass A\n  extend T::Sig\n  sig { returns(String) }\n  def m\n    \"a\"\n  end\nend\n",
                    ),
                ],
                "a:6:5: 7005 result expects Integer, found String\na:9:1: 7014 type is String\n",
            ),
        ],
    )
}
