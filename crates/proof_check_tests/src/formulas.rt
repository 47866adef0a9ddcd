//! Formulas with known answers, and each refusal by its name.

use clause_base::{Clauses, Form, Lit, Log, StepKind};
use dimacs_solver::{
    Checked, Failure, FormErr, Request, check, failure_status, failure_text, read_form, report_on,
    report_text, request_of, solve, status_of,
};
use loc_base::Bytes;
use std::alloc::Global;
use std::test::Fail;

/// What the program prints of a text with so many units, and its exit status.
fn printed(alloc: Global, text: &[u8], units: u8) -> Result<(Bytes, u8), Fail> {
    let units = u32::from(units);
    let form = read_form(alloc, text.to_vec(alloc)?)?;
    let solved = solve(alloc, &form, units)?;
    let checked = check(alloc, &form, solved.solver.log())?;
    let report = report_on(&form, &solved, units, checked);
    Ok((report_text(alloc, &report)?, status_of(&report)))
}

/// Whether the program prints these lines and ends with this status.
fn prints(alloc: Global, text: &[u8], units: u8, want: &[u8], status: u8) -> Result<bool, Fail> {
    let (told, ended) = printed(alloc, text, units)?;
    Ok(told.as_slice() == want && ended == status)
}

const MODEL: &[u8] =
    b"s SATISFIABLE\nconflicts 0\nsteps 0\nchain numbers 0\nlog accepted\nmodel satisfies every clause\n";

#[test]
fn small_formulas_have_models(rt: HostRuntime) -> Result<(), Fail> {
    let alloc = rt.alloc();
    for text in [
        b"p cnf 0 0\n".as_slice(),
        b"c nothing\n\np cnf 3 0\n",
        b"p cnf 1 1\n1 0\n",
        b"p cnf 1 1\n1 -1 0\n",
        b"p cnf 2 2\n1 1 2 0 -1\n-1 0\n",
        b"c clauses go over lines\np cnf 2 3\r\n1\n2 0 -1 0\nc between\n2 -1 2 0\n",
    ] {
        assert!(rt; prints(alloc, text, 9, MODEL, 10)?, "{text:?}");
    }
    Ok(())
}

#[test]
fn an_empty_clause_has_no_model(rt: HostRuntime) -> Result<(), Fail> {
    let (told, status) = printed(rt.alloc(), b"p cnf 2 2\n1 2 0\n0\n", 9)?;
    assert_eq!(rt; status, 20);
    assert!(rt;
        told.as_slice()
            .starts_with(b"s UNSATISFIABLE\nconflicts 0\n")
    );
    Ok(())
}

const ALL_OF_TWO: &[u8] = b"p cnf 2 4\n1 2 0\n1 -2 0\n-1 2 0\n-1 -2 0\n";

#[test]
fn all_signs_of_two_variables_have_no_model(rt: HostRuntime) -> Result<(), Fail> {
    let (told, status) = printed(rt.alloc(), ALL_OF_TWO, 9)?;
    assert_eq!(rt; status, 20);
    assert!(rt;
        told.as_slice()
            .starts_with(b"s UNSATISFIABLE\nconflicts 1\nsteps 2\n")
    );
    assert!(rt; told.as_slice().ends_with(b"\nlog accepted\n"));
    Ok(())
}

#[test]
fn without_units_nothing_is_known(rt: HostRuntime) -> Result<(), Fail> {
    let want = b"s UNKNOWN\nconflicts 0\nsteps 0\nchain numbers 0\nlog accepted\n";
    assert!(rt; prints(rt.alloc(), ALL_OF_TWO, 0, want, 30)?);
    Ok(())
}

#[test]
fn literals_keep_their_signs_and_their_order(rt: HostRuntime) -> Result<(), Fail> {
    let text = b"p cnf 3 2\n3 -1 3 0\n2 -2 0\n".to_vec(rt.alloc())?;
    let form = read_form(rt.alloc(), text)?;
    let want = [
        Lit {
            var: 3,
            negated: false,
        },
        Lit {
            var: 1,
            negated: true,
        },
    ];
    assert_eq!(rt; form.vars, 3);
    assert!(rt; form.clauses.len() == 1);
    assert_eq!(rt; form.clauses.clause(0), want.as_slice());
    Ok(())
}

#[test]
fn texts_that_are_no_formula_are_refused_by_name(rt: HostRuntime) -> Result<(), Fail> {
    let alloc = rt.alloc();
    for (text, want, line) in [
        (
            b"\xff".as_slice(),
            FormErr::NotText,
            b"no text\n".as_slice(),
        ),
        (b"", FormErr::NoProblem, b"no problem line\n"),
        (
            b"1 0\np cnf 1 1\n",
            FormErr::NoProblem,
            b"no problem line\n",
        ),
        (
            b"c\np cnf 1\n",
            FormErr::BadProblem { line: 2 },
            b"bad problem line 2\n",
        ),
        (
            b"p cnf 1 0\np cnf 1 0\n",
            FormErr::BadProblem { line: 2 },
            b"bad problem line 2\n",
        ),
        (
            b"p cnf 4000001 0\n",
            FormErr::BadProblem { line: 1 },
            b"bad problem line 1\n",
        ),
        (
            b"p cnf 1 1\n1x 0\n",
            FormErr::BadWord { line: 2 },
            b"bad word in line 2\n",
        ),
        (
            b"p cnf 1 1\n\n-2 0\n",
            FormErr::OutOfRange { line: 3 },
            b"variable out of range in line 3\n",
        ),
        (
            b"p cnf 1 1\n1\n",
            FormErr::Unended,
            b"last clause without an end\n",
        ),
        (
            b"p cnf 1 2\n1 0\n",
            FormErr::WrongCount,
            b"wrong number of clauses\n",
        ),
    ] {
        match read_form(alloc, text.to_vec(alloc)?) {
            Ok(_) => assert!(rt; false, "{text:?}"),
            Err(error) => {
                let failure = Failure::from(error);
                assert_eq!(rt; error, want);
                assert_eq!(rt; failure_status(failure), 2);
                assert_eq!(rt; failure_text(alloc, failure)?.as_bytes(), line);
            }
        }
    }
    Ok(())
}

#[test]
fn a_log_that_tells_too_much_is_refused(rt: HostRuntime) -> Result<(), Fail> {
    let alloc = rt.alloc();
    let form = Form {
        vars: 1,
        clauses: Clauses::new(alloc),
    };
    let mut log = Log::new(alloc);
    log.push(StepKind::Derived, &[], &[1])?;
    assert_eq!(rt; check(alloc, &form, &log)?, Checked::Refused { step: 1 });
    Ok(())
}

#[test]
fn words_ask_for_a_budget_and_for_times(rt: HostRuntime) -> Result<(), Fail> {
    let alloc = rt.alloc();
    for (words, want) in [
        ("", Some((1_000_000, false))),
        ("7", Some((7, false))),
        ("--times", Some((1_000_000, true))),
        ("7 --times", Some((7, true))),
        ("--times 7", None),
        ("2147483648", None),
        ("7 8", None),
    ] {
        let mut list = Vec::new(alloc);
        for word in words.split_whitespace() {
            list.push(String::from_str(alloc, word)?)?;
        }
        let asked = request_of(&list);
        assert_eq!(rt;
            asked,
            want.map(|(units, times)| Request { units, times }),
            "{words:?}"
        );
    }
    Ok(())
}
