//! Rows of numbers: rounding, roots, tables, decimals, and the words and ranges of points.
use case_model::{NodeState, Point, from_words, point_of, state_of, to_words};
use fixed_num::{NumberFault, interp, read_decimal, rnd, root, write_decimal};

// By hand: 2.5, -2.5, 2, a third, -0.5, and what the two paths give on both sides of 2^64.
#[test]
fn rounds_half_away_from_zero(rt: HostRuntime) {
    assert_eq!(rt; rnd(5, 2), 3);
    assert_eq!(rt; rnd(-5, 2), -3);
    assert_eq!(rt; rnd(4, 2), 2);
    assert_eq!(rt; rnd(1, 3), 0);
    assert_eq!(rt; rnd(-1, 2), -1);
    assert_eq!(rt;
        rnd(18_446_744_073_709_551_615, 2),
        9_223_372_036_854_775_808
    );
    assert_eq!(rt;
        rnd(-55_340_232_221_128_654_850, 20),
        -2_767_011_611_056_432_743
    );
}

// By hand: 3 * 3 = 9 <= 15 < 16 = 4 * 4; a third of 10 is 3.3, two thirds 6.7.
#[test]
fn roots_and_tables(rt: HostRuntime) {
    assert_eq!(rt; root(15), 3);
    assert_eq!(rt; root(16), 4);
    let table = [(0, 0), (3, 10)];
    assert_eq!(rt; interp(&table, -5), 0);
    assert_eq!(rt; interp(&table, 1), 3);
    assert_eq!(rt; interp(&table, 2), 7);
    assert_eq!(rt; interp(&table, 9), 10);
}

#[test]
fn reads_numbers(rt: HostRuntime) {
    let rows: [(&[u8], u32, Result<i64, NumberFault>); 14] = [
        (b"-0.5", 6, Ok(-500_000)),
        (b"+7", 0, Ok(7)),
        (b"007.250", 3, Ok(7250)),
        (b"1000000000000", 6, Ok(1_000_000_000_000_000_000)),
        (b"1.2345678", 6, Err(NumberFault::Places)),
        (b"1.0", 0, Err(NumberFault::Places)),
        (b"1000000000001", 6, Err(NumberFault::Large)),
        (b"99999999999999999999999999", 0, Err(NumberFault::Large)),
        (b"1e3", 6, Err(NumberFault::Spelling)),
        (b"", 6, Err(NumberFault::Spelling)),
        (b".", 6, Err(NumberFault::Spelling)),
        (b"1.", 6, Err(NumberFault::Spelling)),
        (b".5", 6, Err(NumberFault::Spelling)),
        (b"+-7", 6, Err(NumberFault::Spelling)),
    ];
    for (field, places, want) in rows {
        assert!(rt; places <= 12);
        assert_eq!(rt; read_decimal(field, places), want);
    }
}

#[test]
fn writes_numbers(rt: HostRuntime) {
    let rows: [(i128, u32, &[u8]); 6] = [
        (164_917_164, 6, b"164.917164"),
        (-10_100_000, 6, b"-10.100000"),
        (5, 0, b"5"),
        (0, 9, b"0.000000000"),
        (-1, 6, b"-0.000001"),
        (
            -1_000_000_000_000_000_000_000_000_000,
            12,
            b"-1000000000000000.000000000000",
        ),
    ];
    for (value, places, want) in rows {
        assert!(rt; value.unsigned_abs() <= 1_000_000_000_000_000_000_000_000_000);
        assert!(rt; places <= 12);
        let mut text = [0; 48];
        let length = write_decimal(value, places, &mut text);
        assert_eq!(rt; &text[..length], want);
    }
}

#[test]
fn words_of_points(rt: HostRuntime) {
    let good = Point::Good {
        h: -100_000_000_000,
        qu: 1_000_000_000_000,
        qd: -2,
        v: 1_000_000_000_000_000,
    };
    let words = [
        9_900_000_000_000,
        11_000_000_000_000,
        9_999_999_999_998,
        1_000_000_000_000_000,
    ];
    assert_eq!(rt; to_words(&good), words);
    let cold = Point::Good {
        h: -10_100_000,
        qu: -8,
        qd: 8,
        v: 2,
    };
    let cold_words = [9_999_989_900_000, 9_999_999_999_992, 10_000_000_000_008, 2];
    assert_eq!(rt; to_words(&cold), cold_words);
    assert_eq!(rt; from_words(&cold_words), Some(cold));
    assert_eq!(rt; to_words(&Point::Bad), [0; 4]);
    assert_eq!(rt; from_words(&words), Some(good));
    assert_eq!(rt; from_words(&[0; 4]), Some(Point::Bad));
    assert_eq!(rt;
        from_words(&[9_899_999_999_999, 11_000_000_000_000, 0, 0]),
        None
    );
    assert_eq!(rt; from_words(&[u64::MAX; 4]), None);
}

#[test]
fn numbers_at_the_limits(rt: HostRuntime) {
    assert_eq!(rt; point_of(100_000_000_001, 0, 0, 0), Point::Bad);
    assert_eq!(rt; point_of(0, 0, 0, -1), Point::Bad);
    let most = NodeState::Good {
        h: 0,
        v: 0,
        g: -10_000_000_000_000_000,
    };
    assert_eq!(rt; state_of(0, 0, -10_000_000_000_000_000), most);
    assert_eq!(rt; state_of(0, 1_000_000_000_000_001, 0), NodeState::Bad);
}
