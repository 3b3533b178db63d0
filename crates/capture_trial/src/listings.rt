// Listings.
use listing::{Line, Listing, Rewritten, compare_rewritten};
use message::{Kind, Refusal};
use packet::Fault;
use std::test::Fail;

// A read request, and then a packet whose record is too large.
const WORDS: [u32; 4] = [0x0005_0201, 2, 0x0040_0208, 64];

#[test]
fn a_fault_ends_the_listing(rt: HostRuntime) {
    let mut listing = Listing::new(&WORDS);
    assert_eq!(rt;
        listing.next(),
        Some(Line::Packet {
            place: 0,
            source: 5,
            kind: Kind::ReadRequest,
            record: 2,
            value: 0,
        })
    );
    let fault = Fault {
        refusal: Refusal::UnknownRecord,
        place: 3,
    };
    assert_eq!(rt; listing.next(), Some(Line::Fault(fault)));
    assert_eq!(rt; listing.next(), None);
    let mut again = [0; 4];
    assert_eq!(rt; compare_rewritten(&WORDS, &mut again), Err(fault));
}

#[test]
fn totals_and_counts_come_last(rt: HostRuntime) -> Result<(), Fail> {
    let mut listing = Listing::new(&WORDS[..2]);
    assert!(rt; listing.next().is_some());
    assert_eq!(rt;
        listing.next(),
        Some(Line::Totals {
            packets: 1,
            words: 2,
        })
    );
    let first = listing.next().ok_or("no count")?;
    assert!(rt; format!(in rt.alloc(); "{first}")?.as_str() == "1 RREQ");
    for _ in 0..8 {
        assert!(rt; listing.next().is_some());
    }
    assert_eq!(rt; listing.next(), None);
    let mut again = [0; 2];
    assert_eq!(rt;
        compare_rewritten(&WORDS[..2], &mut again),
        Ok(Rewritten::Same)
    );
    Ok(())
}
