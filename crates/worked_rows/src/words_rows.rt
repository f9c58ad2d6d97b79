//! Words against the job that they name, worked out by hand from what the command line says.
use command_words::{Command, Job, WordsFault, read_words};

fn job(command: Command, number: u32, workers: u32, slots: u64, window: u64) -> Job {
    Job {
        command,
        number,
        workers,
        slots,
        window,
    }
}

#[test]
fn words_name_a_job(rt: HostRuntime) {
    let accepted: [(&[&str], Job); 9] = [
        (&["surge", "check"], job(Command::Check, 0, 4, 4, 64)),
        (&["surge", "run"], job(Command::Run, 0, 4, 4, 64)),
        (&["surge", "drill", "7"], job(Command::Drill, 7, 4, 4, 64)),
        // A sign behind the end of options is a part of the number.
        (
            &["surge", "drill", "--", "-0"],
            job(Command::Drill, 0, 4, 4, 64),
        ),
        (
            &["surge", "rounds", "--window=+3"],
            job(Command::Rounds, 0, 4, 4, 3),
        ),
        // Options may stand before the command and behind it.
        (
            &["surge", "--slots", "8", "mesh", "--workers", "64"],
            job(Command::Mesh, 0, 64, 8, 64),
        ),
        (
            &["surge", "--workers=1", "drill", "999999", "--window", "1"],
            job(Command::Drill, 999_999, 1, 4, 1),
        ),
        (
            &["surge", "upgrade", "--window", "256"],
            job(Command::Upgrade, 0, 4, 4, 256),
        ),
        // The first word is the program's name, whatever it is.
        (&["", "mesh"], job(Command::Mesh, 0, 4, 4, 64)),
    ];
    for (words, wanted) in accepted {
        assert!(rt; read_words(rt.alloc(), words) == Ok(wanted), "at {words:?}");
    }
}

#[test]
fn words_are_refused(rt: HostRuntime) {
    let refused: [&[&str]; 17] = [
        &[],
        &["surge"],
        &["surge", "--help"],
        &["surge", "check", "-h"],
        &["surge", "drill"],
        &["surge", "run", "5"],
        &["surge", "Run"],
        &["surge", "help"],
        &["surge", "drill", "-0"],
        &["surge", "drill", "1000000"],
        &["surge", "run", "--workers", "0"],
        &["surge", "run", "--workers", "65"],
        &["surge", "run", "--slots", "9"],
        &["surge", "run", "--window"],
        &["surge", "run", "--window", "257"],
        &["surge", "upgrade", "2"],
        &["surge", "run", "--slots", "4", "--slots", "4"],
    ];
    for words in refused {
        assert!(rt;
            read_words(rt.alloc(), words) == Err(WordsFault::Words),
            "at {words:?}"
        );
    }
}
