use super::*;
use std::test::Fail;

// The numbers that a problem is generated from, and its two texts.
type Case = (u64, u32, u32, u32, &'static [u8], &'static [u8]);

#[test]
fn texts(rt: HostRuntime) -> Result<(), Fail> {
    let cases: [Case; 4] = [
        (
            1,
            1,
            0,
            0,
            b"NAME gen\nROWS\n N obj\nCOLUMNS\n M 'MARKER' 'INTORG'\n c0 obj 75\n M 'MARKER' 'INTEND'\nRHS\nBOUNDS\n UP bnd c0 9\nENDATA\n",
            b"scenarios 0\n",
        ),
        (
            7,
            3,
            2,
            2,
            b"NAME gen\nROWS\n N obj\n G r0\n G r1\nCOLUMNS\n M 'MARKER' 'INTORG'\n c0 obj 38\n c0 r0 1\n c1 obj 7\n c1 r1 1\n c2 obj 86\n c2 r0 1\n M 'MARKER' 'INTEND'\nRHS\n rhs r0 13\n rhs r1 4\nBOUNDS\n UP bnd c0 9\n UP bnd c1 9\n UP bnd c2 9\nENDATA\n",
            b"scenarios 2\nscenario 0\nobj c2 69\nrhs r0 9\nub c2 3\nscenario 1\nub c0 0\nobj c1 31\nobj c2 60\n",
        ),
        (
            7,
            2,
            3,
            1,
            b"NAME gen\nROWS\n N obj\n G r0\n G r1\n G r2\nCOLUMNS\n M 'MARKER' 'INTORG'\n c0 obj 38\n c0 r0 1\n c1 obj 7\n c1 r1 1\n M 'MARKER' 'INTEND'\nRHS\n rhs r0 2\n rhs r1 4\n rhs r2 0\nBOUNDS\n UP bnd c0 9\n UP bnd c1 9\nENDATA\n",
            b"scenarios 1\nscenario 0\nobj c1 69\nub c1 8\nobj c0 57\n",
        ),
        (
            u64::MAX,
            2,
            0,
            2,
            b"NAME gen\nROWS\n N obj\nCOLUMNS\n M 'MARKER' 'INTORG'\n c0 obj 19\n c1 obj 23\n M 'MARKER' 'INTEND'\nRHS\nBOUNDS\n UP bnd c0 9\n UP bnd c1 9\nENDATA\n",
            b"scenarios 2\nscenario 0\nobj c1 83\nobj c1 82\nobj c0 56\nscenario 1\nub c0 5\nobj c1 94\nub c0 0\n",
        ),
    ];
    for (seed, columns, rows, scenarios, model, changes) in cases {
        let generated = generate(rt.alloc(), seed, columns, rows, scenarios)?;
        assert_eq!(rt; generated.model.as_slice(), model);
        assert_eq!(rt; generated.changes.as_slice(), changes);
    }
    Ok(())
}

// The numbers that a problem is generated from, and of each text the length and the sum of its bytes.
type Sums = (u32, u32, u32, (usize, u64), (usize, u64));

fn sum_of(text: &[u8]) -> u64 {
    let mut sum: u64 = 0;
    for byte in text {
        sum = sum.wrapping_add(u64::from(*byte));
    }
    sum
}

#[test]
fn largest_sizes_twice(rt: HostRuntime) -> Result<(), Fail> {
    let cases: [Sums; 4] = [
        (1000, 1000, 64, (60350, 3540250), (2901, 199346)),
        (1000, 0, 64, (27790, 1698323), (2846, 191785)),
        (1, 1000, 64, (19902, 1172058), (2562, 178509)),
        (40, 20, 8, (1862, 110438), (341, 24096)),
    ];
    for (columns, rows, scenarios, model, changes) in cases {
        for _ in 0..2 {
            let generated = generate(rt.alloc(), 7, columns, rows, scenarios)?;
            assert_eq!(rt; generated.model.len(), model.0);
            assert_eq!(rt; sum_of(&generated.model), model.1);
            assert_eq!(rt; generated.changes.len(), changes.0);
            assert_eq!(rt; sum_of(&generated.changes), changes.1);
        }
    }
    Ok(())
}
