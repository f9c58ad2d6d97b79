//! The texts of one line: usage, acceptance, and the line of each refusal. Their wording is that of
//! the tables in the documents.
use report::{write_accepted, write_refusal, write_usage};
use std::test::Fail;
use surge_io::MemorySink;

#[test]
fn texts_of_one_line(rt: HostRuntime) -> Result<(), Fail> {
    let mut out = MemorySink::make(rt.alloc(), 2_000, Vec::new(rt.alloc()))?;
    assert_eq!(rt; write_usage(&mut out), Ok(()));
    for number in 0..18u8 {
        assert_eq!(rt;
            write_refusal(number, 100 + number as u64, &mut out),
            Ok(())
        );
    }
    assert_eq!(rt; write_refusal(255, 0, &mut out), Ok(()));
    assert_eq!(rt; write_accepted(&mut out), Ok(()));
    let want =
        "usage: surge check|mesh|rounds|run|drill|upgrade [number] [--workers n] [--slots n] [--window n]\nrefused 0 line 100\nrefused 1 line 101 first line\nrefused 2 line 102 unknown word\nrefused 3 line 103 count of fields\nrefused 4 line 104 spelling\nrefused 5 line 105 number out of limits\nrefused 6 line 106 name repeated\nrefused 7 line 107 name unknown\nrefused 8 line 108 directive missing\nrefused 9 line 109 directive repeated\nrefused 10 line 110 too many or too long\nrefused 11 line 111 ends do not suit\nrefused 12 line 112 reaches\nrefused 13 line 113 wave speed over tolerance\nrefused 14 line 114 table order\nrefused 15 line 115 coefficient out of limits\nrefused 16 line 116 probe off the mesh\nrefused 17 line 117\nrefused 255 line 0\naccepted\n";
    assert_eq!(rt; out.bytes(), want.as_bytes());
    Ok(())
}
