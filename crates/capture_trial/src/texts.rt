// Texts of captures.
use hex_text::{TextFault, read_words};

// Both cases of letters and all white space; then a ninth digit, on the third line.
#[test]
fn reads_up_to_a_stray_byte(rt: HostRuntime) {
    let mut out = [7; 24];
    let answer = read_words(b"\t1F c0FFEE\r\n\n012345678", &mut out);
    assert_eq!(rt; answer, Err(TextFault::Stray { line: 3, column: 9 }));
    assert!(rt; out[0] == 0x1f && out[1] == 0xc0_ffee && out[2] == 7);
}

// A buffer that is one word too short is left alone.
#[test]
fn refuses_a_short_buffer(rt: HostRuntime) {
    let mut out = [7; 2];
    assert_eq!(rt; read_words(b"1 2", &mut out), Err(TextFault::Short));
    assert!(rt; out[0] == 7 && out[1] == 7);
}
