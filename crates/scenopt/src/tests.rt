// The worked models, command lines, faults and refusals, run over a desk in memory.
use crate::run::{quiet_main, scen_main};
use crate::status::Status;
use desk::MemoryDesk;
use std::alloc::{AllocError, Global};
use std::sync::Wait;
use std::sync::atomic::{AtomicU64, Ordering};
use std::test::Fail;
use std::thread;
use worker_gate::{Gate, GatePoint};

const M1: [&str; 15] = [
    "NAME m1\n",
    "ROWS\n",
    " N cost\n",
    " L cap\n",
    "COLUMNS\n",
    " M 'MARKER' 'INTORG'\n",
    " x cost -3 cap 2\n",
    " y cost -2 cap 1\n",
    " M 'MARKER' 'INTEND'\n",
    "RHS\n",
    " rhs cap 4\n",
    "BOUNDS\n",
    " UP b x 3\n",
    " UP b y 3\n",
    "ENDATA\n",
];

const M1_REPORT: &str =
    "ImpliedBinary 0\nNumScenarios 0\nScenarioNumber 0\nScenNName -\nStatus optimal\nScenNObjVal -7\nScenNObjBound -7\nScenNX x 1\nScenNX y 2\n";

// M1 with two lines replaced; number 0 is no line.
fn edited(
    alloc: Global,
    first: (usize, &str),
    second: (usize, &str),
) -> Result<String, AllocError> {
    let mut text = String::new(alloc);
    for (index, line) in M1.iter().enumerate() {
        if index + 1 == first.0 {
            text.push_str(first.1)?;
        } else if index + 1 == second.0 {
            text.push_str(second.1)?;
        } else {
            text.push_str(line)?;
        }
    }
    Ok(text)
}

fn words_of(alloc: Global, words: &[&str]) -> Result<Vec<String>, AllocError> {
    let mut all = Vec::new(alloc);
    for word in words {
        all.push(String::from_str(alloc, word)?)?;
    }
    Ok(all)
}

// A desk with a model file on which `solve` has run, and the status.
fn solved(alloc: Global, text: &str) -> Result<(MemoryDesk, Status), AllocError> {
    let mut desk = MemoryDesk::new(alloc);
    desk.add_file("m", text.as_bytes())?;
    let words = words_of(alloc, &["solve", "m", "-"])?;
    let status = quiet_main(alloc, &words, &mut desk);
    Ok((desk, status))
}

// The same with a file of changes.
fn solved_with(
    alloc: Global,
    text: &str,
    changes: &str,
) -> Result<(MemoryDesk, Status), AllocError> {
    let mut desk = MemoryDesk::new(alloc);
    desk.add_file("m", text.as_bytes())?;
    desk.add_file("c", changes.as_bytes())?;
    let words = words_of(alloc, &["solve", "m", "c"])?;
    let status = quiet_main(alloc, &words, &mut desk);
    Ok((desk, status))
}

#[test]
fn reports_the_worked_models(rt: HostRuntime) -> Result<(), Fail> {
    let alloc = rt.alloc();
    let m1 = edited(alloc, (0, ""), (0, ""))?;
    let cases = [
        (m1.as_str(), M1_REPORT),
        (
            "NAME m1\nOBJSENSE\n MAX\nROWS\n N cost\n L cap\nCOLUMNS\n M 'MARKER' 'INTORG'\n x cost 3 cap 2\n y cost 2 cap 1\n M 'MARKER' 'INTEND'\nRHS\n rhs cap 4\nBOUNDS\n UP b x 3\n UP b y 3\nENDATA\n",
            "ImpliedBinary 0\nNumScenarios 0\nScenarioNumber 0\nScenNName -\nStatus optimal\nScenNObjVal 7\nScenNObjBound 7\nScenNX x 1\nScenNX y 2\n",
        ),
        (
            "NAME none\nROWS\n N obj\n G r\nCOLUMNS\nRHS\n rhs r 0\nENDATA\n",
            "ImpliedBinary 0\nNumScenarios 0\nScenarioNumber 0\nScenNName -\nStatus optimal\nScenNObjVal 0\nScenNObjBound 0\n",
        ),
        (
            "NAME none\nROWS\n N obj\n G r\nCOLUMNS\nRHS\n rhs r 1\nENDATA\n",
            "ImpliedBinary 0\nNumScenarios 0\nScenarioNumber 0\nScenNName -\nStatus infeasible\nScenNObjVal inf\nScenNObjBound inf\n",
        ),
        (
            "* written by a usual producer\nNAME          prod\nROWS\n N  OBJ\n L  c1\nCOLUMNS\n    MARKER                 'MARKER'                 'INTORG'\n    x         OBJ       3.0000000000e+00   c1        1.0000000000e+00\n    y         OBJ       -2.0000000000e+00   c1        1.0000000000e+00\n    MARKER                 'MARKER'                 'INTEND'\nRHS\n    RHS1      OBJ       5.0000000000e+00   c1        4.0000000000e+00\nBOUNDS\n UP BND1      x         4.0000000000e+00\nENDATA\n",
            "ImpliedBinary 1\nNumScenarios 0\nScenarioNumber 0\nScenNName -\nStatus optimal\nScenNObjVal -7\nScenNObjBound -7\nScenNX x 0\nScenNX y 1\n",
        ),
        (
            "ROWS\n N obj\nCOLUMNS\n x obj 1000000000\nBOUNDS\n LI b x -1000000\n UI b x -999990\nENDATA\n",
            "ImpliedBinary 0\nNumScenarios 0\nScenarioNumber 0\nScenNName -\nStatus optimal\nScenNObjVal -1000000000000000\nScenNObjBound -1000000000000000\nScenNX x -1000000\n",
        ),
        (
            "ROWS\n N obj\n E r\nCOLUMNS\n M 'MARKER' 'INTORG'\n x obj 1 r 1\n M 'MARKER' 'INTEND'\nRHS\n rhs r 5\nRANGES\n rng r -2\nBOUNDS\n UP b x 9\nENDATA\n",
            "ImpliedBinary 0\nNumScenarios 0\nScenarioNumber 0\nScenNName -\nStatus optimal\nScenNObjVal 3\nScenNObjBound 3\nScenNX x 3\n",
        ),
        (
            "ROWS\n N obj\n E r\nCOLUMNS\n M 'MARKER' 'INTORG'\n x obj 1 r 1\n M 'MARKER' 'INTEND'\nRHS\n rhs r 5\nRANGES\n rng r 2\nBOUNDS\n UP b x 9\nENDATA\n",
            "ImpliedBinary 0\nNumScenarios 0\nScenarioNumber 0\nScenNName -\nStatus optimal\nScenNObjVal 5\nScenNObjBound 5\nScenNX x 5\n",
        ),
    ];
    for (text, report) in cases {
        let (desk, status) = solved(alloc, text)?;
        assert_eq!(rt; status, Status::Done, "at {text}");
        assert_eq!(rt; desk.printed(), report.as_bytes(), "at {text}");
        assert_eq!(rt; desk.warned(), b"".as_slice(), "at {text}");
    }
    Ok(())
}

#[test]
fn reports_each_scenario(rt: HostRuntime) -> Result<(), Fail> {
    let alloc = rt.alloc();
    let m1 = edited(alloc, (0, ""), (0, ""))?;
    let cases = [
        (
            "scenarios 4\nscenario 1\nrhs cap 2\nscenario 2\nobj x -5\nscenario 3\nlb x 3\n",
            "ImpliedBinary 0\nNumScenarios 4\nScenarioNumber 0\nScenNName -\nStatus optimal\nScenNObjVal -7\nScenNObjBound -7\nScenNX x 1\nScenNX y 2\nScenarioNumber 1\nScenNName -\nStatus optimal\nScenNObjVal -4\nScenNObjBound -4\nScenNX x 0\nScenNX y 2\nScenarioNumber 2\nScenNName -\nStatus optimal\nScenNObjVal -10\nScenNObjBound -10\nScenNX x 2\nScenNX y 0\nScenarioNumber 3\nScenNName -\nStatus infeasible\nScenNObjVal inf\nScenNObjBound inf\n",
        ),
        (
            "scenarios 1\nname wide\nrhs cap inf\n",
            "ImpliedBinary 0\nNumScenarios 1\nScenarioNumber 0\nScenNName wide\nStatus optimal\nScenNObjVal -15\nScenNObjBound -15\nScenNX x 3\nScenNX y 3\n",
        ),
        (
            "scenarios 1\nlb x 2\nub x 1\n",
            "ImpliedBinary 0\nNumScenarios 1\nScenarioNumber 0\nScenNName -\nStatus infeasible\nScenNObjVal inf\nScenNObjBound inf\n",
        ),
        (
            "scenarios 1\nub x 0\nub x undefined\n",
            "ImpliedBinary 0\nNumScenarios 1\nScenarioNumber 0\nScenNName -\nStatus optimal\nScenNObjVal -7\nScenNObjBound -7\nScenNX x 1\nScenNX y 2\n",
        ),
        ("", M1_REPORT),
        ("* no scenarios\nscenarios 0\n", M1_REPORT),
    ];
    for (changes, report) in cases {
        let (desk, status) = solved_with(alloc, m1.as_str(), changes)?;
        assert_eq!(rt; status, Status::Done, "at {changes}");
        assert_eq!(rt; desk.printed(), report.as_bytes(), "at {changes}");
        assert_eq!(rt; desk.warned(), b"".as_slice(), "at {changes}");
    }
    Ok(())
}

#[test]
fn refuses_changes_at_their_first_offence(rt: HostRuntime) -> Result<(), Fail> {
    let alloc = rt.alloc();
    let m1 = edited(alloc, (0, ""), (0, ""))?;
    let cases = [
        ("scenarios 65\n", "changes line 1: TooMany\n"),
        ("scenario 0\n", "changes line 1: Header\n"),
        (
            "scenarios 4\nscenario 1\nrhs cap",
            "changes line 3: Fields\n",
        ),
        ("scenarios 1\nobj w 1\n", "changes line 2: UnknownColumn\n"),
        ("scenarios 1\nrhs cost 1\n", "changes line 2: UnknownRow\n"),
    ];
    for (changes, message) in cases {
        let (desk, status) = solved_with(alloc, m1.as_str(), changes)?;
        assert_eq!(rt; status, Status::ChangesRefused, "at {message}");
        assert_eq!(rt; desk.warned(), message.as_bytes(), "at {message}");
        assert_eq!(rt; desk.printed(), b"".as_slice(), "at {message}");
    }
    // A model that is refused comes first.
    let (desk, status) = solved_with(alloc, "", "scenarios 65\n")?;
    assert_eq!(rt; status, Status::ModelRefused);
    assert_eq!(rt; desk.warned(), b"model line 1: NoEnd\n".as_slice());
    Ok(())
}

#[test]
fn reads_each_layout(rt: HostRuntime) -> Result<(), Fail> {
    let alloc = rt.alloc();
    let cases = [
        // Carriage returns, tabs, comments, empty lines, and bytes behind the end.
        ((7, " x cost -3 cap 2\r\n"), (10, "RHS\r\n")),
        ((7, "\tx\tcost\t-3\tcap\t2\n"), (15, "ENDATA")),
        (
            (7, "* x cost 1\n\n \t\n x cost -3 cap 2\n"),
            (15, "ENDATA\nROWS\n \0 x\n"),
        ),
        // One pair a line, and a right-hand side without the name of a set.
        ((7, " x cost -3\n x cap 2\n"), (11, " cap 4\n")),
        // The last of several bounds counts.
        (
            (13, " UP b x 9\n UP b x 3\n"),
            (14, " FX b y 1\n MI b y\n LO b y 0\n UP b y 3\n"),
        ),
        // Numbers of dropped rows aren't read.
        (
            (3, " N cost\n N other\n"),
            (7, " x cost -3 other junk\n x cap 2\n"),
        ),
    ];
    for (first, second) in cases {
        let text = edited(alloc, first, second)?;
        let (desk, status) = solved(alloc, text.as_str())?;
        assert_eq!(rt; status, Status::Done, "at {text}");
        assert_eq!(rt; desk.printed(), M1_REPORT.as_bytes(), "at {text}");
    }
    Ok(())
}

#[test]
fn refuses_models_at_their_first_offence(rt: HostRuntime) -> Result<(), Fail> {
    let alloc = rt.alloc();
    let cases = [
        ((4, " Q cap\n"), (0, ""), "model line 4: Fields\n"),
        (
            (7, " x cost -3 top 2\n"),
            (0, ""),
            "model line 7: UnknownRow\n",
        ),
        (
            (7, " x cost -3 cap 0.5\n"),
            (0, ""),
            "model line 7: Fraction\n",
        ),
        (
            (8, " x cost -2 cap 1\n"),
            (0, ""),
            "model line 8: Duplicate\n",
        ),
        (
            (8, " y cost -2 cap one\n"),
            (0, ""),
            "model line 8: Number\n",
        ),
        (
            (11, " rhs cap 4 extra\n"),
            (0, ""),
            "model line 11: UnknownRow\n",
        ),
        (
            (11, " rhs cap 4\n other cap 5\n"),
            (0, ""),
            "model line 12: SecondSet\n",
        ),
        (
            (13, " UP b w 3\n"),
            (0, ""),
            "model line 13: UnknownColumn\n",
        ),
        (
            (13, " UP b x -1\n"),
            (0, ""),
            "model line 15: NegativeUpper\n",
        ),
        ((13, " LO b x 1\n"), (0, ""), "model line 15: Unbounded\n"),
        ((6, ""), (9, ""), "model line 13: Continuous\n"),
        ((10, "SETS\n"), (0, ""), "model line 10: Section\n"),
        ((15, ""), (0, ""), "model line 15: NoEnd\n"),
        (
            (7, " x cost 1000000001 cap 2\n"),
            (0, ""),
            "model line 7: Magnitude\n",
        ),
        // Each kind in each section where it may come.
        (
            (2, "OBJSENSE\n UP\nROWS\n"),
            (0, ""),
            "model line 3: Fields\n",
        ),
        ((2, "OBJSENSE\nROWS\n"), (0, ""), "model line 3: Section\n"),
        ((2, "ROWS\n N cost\n"), (0, ""), "model line 4: Duplicate\n"),
        ((4, " L cap more\n"), (0, ""), "model line 4: Fields\n"),
        ((7, " x cost\n"), (0, ""), "model line 7: Fields\n"),
        (
            (7, " x cost -3 cost -3\n"),
            (0, ""),
            "model line 7: Duplicate\n",
        ),
        (
            (8, " y cost -2\n x cap 1\n"),
            (0, ""),
            "model line 9: Duplicate\n",
        ),
        ((11, " rhs\n"), (0, ""), "model line 11: Fields\n"),
        (
            (11, " rhs cap 4 cap 4\n"),
            (0, ""),
            "model line 11: Duplicate\n",
        ),
        ((11, " rhs cap four\n"), (0, ""), "model line 11: Number\n"),
        ((11, " rhs cap 4.5\n"), (0, ""), "model line 11: Fraction\n"),
        (
            (11, " rhs cost 1e16\n"),
            (0, ""),
            "model line 11: Magnitude\n",
        ),
        (
            (12, "RANGES\n r cap\nBOUNDS\n"),
            (0, ""),
            "model line 13: UnknownRow\n",
        ),
        (
            (12, "RANGES\n r cap 1 cap 1\nBOUNDS\n"),
            (0, ""),
            "model line 13: Duplicate\n",
        ),
        (
            (12, "RANGES\n r cap 1e19\nBOUNDS\n"),
            (0, ""),
            "model line 13: Magnitude\n",
        ),
        (
            (12, "RANGES\n r top 1\nBOUNDS\n"),
            (0, ""),
            "model line 13: UnknownRow\n",
        ),
        ((13, " UP b\n"), (0, ""), "model line 13: Fields\n"),
        ((13, " XX b x 3\n"), (0, ""), "model line 13: Fields\n"),
        (
            (13, " UP b x 3\n UP c x 3\n"),
            (0, ""),
            "model line 14: SecondSet\n",
        ),
        ((13, " UP b x three\n"), (0, ""), "model line 13: Number\n"),
        ((13, " UP b x 1e-1\n"), (0, ""), "model line 13: Fraction\n"),
        (
            (13, " UP b x 1000001\n"),
            (0, ""),
            "model line 13: Magnitude\n",
        ),
    ];
    for (first, second, message) in cases {
        let text = edited(alloc, first, second)?;
        let (desk, status) = solved(alloc, text.as_str())?;
        assert_eq!(rt; status, Status::ModelRefused, "at {message}");
        assert_eq!(rt; desk.warned(), message.as_bytes(), "at {message}");
        assert_eq!(rt; desk.printed(), b"".as_slice(), "at {message}");
    }
    let (desk, status) = solved(alloc, "")?;
    assert_eq!(rt; status, Status::ModelRefused);
    assert_eq!(rt; desk.warned(), b"model line 1: NoEnd\n".as_slice());
    Ok(())
}

// How many fronts of a text are accepted as models.
fn accepted_fronts(alloc: Global, text: &str) -> Result<usize, AllocError> {
    let mut accepted = 0usize;
    let mut front = String::new(alloc);
    for letter in text.chars() {
        let (_, status) = solved(alloc, front.as_str())?;
        if status != Status::ModelRefused {
            accepted = accepted.saturating_add(1);
        }
        front.push(letter)?;
    }
    let (_, status) = solved(alloc, front.as_str())?;
    if status != Status::ModelRefused {
        accepted = accepted.saturating_add(1);
    }
    Ok(accepted)
}

#[test]
fn accepts_no_front_but_the_last_two(rt: HostRuntime) -> Result<(), Fail> {
    let alloc = rt.alloc();
    let m1 = edited(alloc, (0, ""), (0, ""))?;
    assert_eq!(rt; accepted_fronts(alloc, m1.as_str())?, 2usize);
    Ok(())
}

const USAGE: &[u8] =
    b"usage: scenopt solve MODEL CHANGES [--workers N] [--nodes K] [--log FILE]\n       scenopt check MODEL CHANGES LOG\n       scenopt gen SEED COLUMNS ROWS SCENARIOS\n";

// Whether words end with the usage text alone, before any fault.
fn are_no_command(alloc: Global, words: &[&str]) -> Result<bool, AllocError> {
    let mut desk = MemoryDesk::new(alloc);
    let words = words_of(alloc, words)?;
    let status = quiet_main(alloc, &words, &mut desk);
    Ok(status == Status::Usage && desk.warned() == USAGE && desk.faults() == (0, 0))
}

#[test]
fn refuses_what_is_no_command(rt: HostRuntime) -> Result<(), Fail> {
    let alloc = rt.alloc();
    assert!(rt; are_no_command(alloc, &[])?);
    assert!(rt; are_no_command(alloc, &["solve", "m"])?);
    assert!(rt; are_no_command(alloc, &["solve", "-", "-"])?);
    assert!(rt; are_no_command(alloc, &["solve", "", "-"])?);
    assert!(rt; are_no_command(alloc, &["solve", "m", ""])?);
    assert!(rt; are_no_command(alloc, &["solve", "m", "-c"])?);
    assert!(rt; are_no_command(alloc, &["Solve", "m", "-"])?);
    assert!(rt; are_no_command(alloc, &["--help"])?);
    assert!(rt; are_no_command(alloc, &["solve", "m", "-", "--workers", "0"])?);
    assert!(rt; are_no_command(alloc, &["solve", "m", "-", "--nodes", "1", "--nodes", "1"])?);
    assert!(rt; !are_no_command(alloc, &["solve", "m", "-"])?);
    Ok(())
}

#[test]
fn tells_of_faults(rt: HostRuntime) -> Result<(), Fail> {
    let alloc = rt.alloc();
    let m1 = edited(alloc, (0, ""), (0, ""))?;
    let cases = [
        (1, 0, Status::ReadFault, "", "cannot read model\n"),
        (2, 0, Status::ReadFault, "", "cannot read changes\n"),
        (3, 4, Status::WriteFault, "Impl", "cannot write output\n"),
    ];
    for (call, kept, wanted, printed, warned) in cases {
        let mut desk = MemoryDesk::new(alloc);
        desk.add_file("m", m1.as_bytes())?;
        desk.add_file("c", b"scenarios 1\n")?;
        desk.fail(call, kept)?;
        let words = words_of(alloc, &["solve", "m", "c"])?;
        assert_eq!(rt;
            quiet_main(alloc, &words, &mut desk),
            wanted,
            "at call {call}"
        );
        assert_eq!(rt; desk.printed(), printed.as_bytes(), "at call {call}");
        assert_eq!(rt; desk.warned(), warned.as_bytes(), "at call {call}");
    }
    // A log that can't be written leaves its front, and nothing is printed.
    let mut desk = MemoryDesk::new(alloc);
    desk.add_file("m", m1.as_bytes())?;
    desk.fail(2, 5)?;
    let words = words_of(alloc, &["solve", "m", "-", "--log", "l"])?;
    assert_eq!(rt; quiet_main(alloc, &words, &mut desk), Status::WriteFault);
    assert_eq!(rt; desk.file("l"), Some(b"scenl".as_slice()));
    assert_eq!(rt; desk.printed(), b"".as_slice());
    assert_eq!(rt; desk.warned(), b"cannot write log\n".as_slice());
    // After a warning that failed no other is tried.
    let mut desk = MemoryDesk::new(alloc);
    desk.fail(1, 5)?;
    assert_eq!(rt; quiet_main(alloc, &[], &mut desk), Status::WriteFault);
    assert_eq!(rt; desk.warned(), b"usage".as_slice());
    Ok(())
}

// Holds the worker of the second call at Claimed until another worker makes a later one, for at most a
// million turns.
#[derive(Drop)]
struct HoldGate {
    calls: AtomicU64,
    held: AtomicU64,
    later: AtomicU64,
    released: AtomicU64,
}

impl Gate for HoldGate {
    fn at<R: Wait + Sync>(&self, _rt: &R, worker: u32, point: GatePoint) {
        if point != GatePoint::Claimed {
            return;
        }
        let call = self.calls.fetch_add(1, Ordering::SeqCst);
        if call == 1 {
            self.held.store(u64::from(worker) + 1, Ordering::SeqCst);
            for _ in 0..1_000_000u32 {
                if self.later.load(Ordering::SeqCst) == 1 {
                    self.released.store(1, Ordering::SeqCst);
                    return;
                }
                thread::yield_now();
            }
        } else if call > 1 && self.held.load(Ordering::SeqCst) != u64::from(worker) + 1 {
            self.later.store(1, Ordering::SeqCst);
        }
    }
}

#[test]
fn has_two_workers_at_once(rt: HostRuntime) -> Result<(), Fail> {
    let alloc = rt.alloc();
    let mut desk = MemoryDesk::new(alloc);
    desk.add_file(
        "m",
        b"ROWS\n N obj\n E r\nCOLUMNS\n M 'MARKER' 'INTORG'\n x r 2\n y r 2\n z r 2\n M 'MARKER' 'INTEND'\nRHS\n rhs r 3\nENDATA\n",
    )?;
    let gate = HoldGate {
        calls: AtomicU64::new(0),
        held: AtomicU64::new(0),
        later: AtomicU64::new(0),
        released: AtomicU64::new(0),
    };
    let words = words_of(
        alloc,
        &["solve", "m", "-", "--workers", "2", "--nodes", "15"],
    )?;
    assert_eq!(rt;
        scen_main(&rt, alloc, &words, &mut desk, &gate),
        Status::Done
    );
    assert_eq!(rt; gate.released.load(Ordering::SeqCst), 1);
    assert_eq!(rt;
        desk.printed(),
        b"ImpliedBinary 3\nNumScenarios 0\nScenarioNumber 0\nScenNName -\nStatus infeasible\nScenNObjVal inf\nScenNObjBound inf\n".as_slice()
    );
    Ok(())
}
