// Packets.
use message::{Kind, Message, Refusal};
use packet::{Fault, Packet, Reader, read, worked_examples};
use stream::{rewrite, write_all};

// What the reader says of words: the packet, or the fault.
fn said(words: &[u32]) -> Result<Packet, Fault> {
    Ok(read(words, 0)?.packet)
}

fn faulty(refusal: Refusal, place: usize) -> Result<Packet, Fault> {
    Err(Fault { refusal, place })
}

fn packet(source: u16, kind: Kind, record: u32, value: u64) -> Packet {
    Packet {
        source,
        message: Message::new(kind, record, value),
    }
}

#[test]
fn record_63_is_the_last(rt: HostRuntime) {
    assert_eq!(rt;
        said(&[0x0005_0201, 63]),
        Ok(packet(5, Kind::ReadRequest, 63, 0))
    );
    assert_eq!(rt; said(&[0x0005_0201, 64]), faulty(Refusal::UnknownRecord, 1));
    let mut out = [7; 2];
    assert_eq!(rt;
        packet(5, Kind::ReadRequest, 64, 0).write(&mut out),
        Err(Refusal::Malformed)
    );
    assert!(rt; out[0] == 7 && out[1] == 7);
}

#[test]
fn sources_go_with_kinds(rt: HostRuntime) {
    assert_eq!(rt;
        said(&[0x003f_0205, 0]),
        Ok(packet(63, Kind::Acknowledgement, 0, 0))
    );
    assert_eq!(rt; said(&[0x0040_0205, 0]), faulty(Refusal::WrongSource, 0));
    assert_eq!(rt; said(&[0x003f_0208, 0]), faulty(Refusal::WrongSource, 0));
    assert_eq!(rt;
        said(&[0x0040_0208, 0]),
        Ok(packet(64, Kind::Invalidate, 0, 0))
    );
    assert_eq!(rt; said(&[0x0041_0208, 0]), faulty(Refusal::WrongSource, 0));
    let mut out = [7; 2];
    assert_eq!(rt;
        packet(64, Kind::Acknowledgement, 0, 0).write(&mut out),
        Err(Refusal::WrongSource)
    );
    assert_eq!(rt;
        packet(65, Kind::Invalidate, 0, 0).write(&mut out),
        Err(Refusal::WrongSource)
    );
    assert!(rt; out[0] == 7 && out[1] == 7);
}

#[test]
fn opcodes_and_lengths_are_judged_first(rt: HostRuntime) {
    assert_eq!(rt; said(&[0x0041_0200]), faulty(Refusal::UnknownOpcode, 0));
    assert_eq!(rt; said(&[0x0041_020a]), faulty(Refusal::UnknownOpcode, 0));
    assert_eq!(rt; said(&[0x0041_0401]), faulty(Refusal::WrongLength, 0));
    assert_eq!(rt; said(&[0x0041_0206]), faulty(Refusal::WrongLength, 0));
}

#[test]
fn the_largest_value_comes_back(rt: HostRuntime) {
    let update = packet(63, Kind::Update, 63, u64::MAX);
    let mut out = [7; 5];
    assert_eq!(rt; update.write(&mut out), Ok(()));
    assert!(rt; out[0] == 0x003f_0404 && out[2] == u32::MAX && out[3] == u32::MAX && out[4] == 7);
    assert_eq!(rt; said(&out), Ok(update));
}

// A packet of four words, cut after each: the words are missing where they end, and a buffer of that length is full.
#[test]
fn a_packet_is_cut(rt: HostRuntime) {
    let words = [0x0040_0406, 2, 500, 0];
    for length in 0..4 {
        assert_eq!(rt;
            said(&words[..length]),
            faulty(Refusal::MissingWords, length)
        );
        let mut out = [7; 4];
        assert_eq!(rt;
            packet(64, Kind::ReadData, 2, 500).write(&mut out[..length]),
            Err(Refusal::Full)
        );
        assert_eq!(rt; out, [7; 4]);
    }
    assert_eq!(rt; said(&words), Ok(packet(64, Kind::ReadData, 2, 500)));
}

#[test]
fn worked_examples_make_a_stream(rt: HostRuntime) {
    let mut out = [7; 7];
    assert_eq!(rt; write_all(&worked_examples(), &mut out), Ok(6));
    assert_eq!(rt; out, [0x0005_0201, 2, 0x0040_0406, 2, 500, 0, 7]);
    let mut again = [9; 6];
    assert!(rt; rewrite(&out[..6], &mut again).is_ok());
    assert_eq!(rt; again, [0x0005_0201, 2, 0x0040_0406, 2, 500, 0]);
    let mut reader = Reader::new(&out);
    assert!(rt; reader.next().is_ok());
    assert_eq!(rt; reader.place(), 2);
    assert!(rt; reader.next().is_ok());
    assert!(rt; !reader.is_at_end());
    assert!(rt; reader.next().is_err());
    assert_eq!(rt; reader.place(), 6);
}
