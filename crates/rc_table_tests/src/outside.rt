// What no clause says of the real ends: that a call can succeed, and what they do. Each is called through its trait.
use rc_outside::{Failed, Sink, SinkErr, Source, StdSink, StdSource};

// What a pull answers: how many bytes it gives, if any.
fn drawn<S: Source>(source: &mut S) -> Option<usize> {
    let mut block = [0; 4];
    match source.pull(&mut block) {
        Ok(count) => Some(count),
        Err(Failed) => None,
    }
}

// What a push answers: `k` for Ok, `!` for a fault, `m` for want of memory.
fn answer<S: Sink>(sink: &mut S, piece: &[u8]) -> char {
    match sink.push(piece) {
        Ok(()) => 'k',
        Err(SinkErr::Failed) => '!',
        Err(SinkErr::NoMemory) => 'm',
    }
}

// A test has an empty standard input.
#[test]
fn standard_input_ends(rt: HostRuntime) {
    let mut source = StdSource::new(&rt);
    for _ in 0..4 {
        assert!(rt; drawn(&mut source) == Some(0));
    }
}

#[test]
fn standard_output_takes_a_piece(rt: HostRuntime) {
    let mut sink = StdSink::new(&rt);
    assert!(rt; answer(&mut sink, b"ab") == 'k');
    assert!(rt; answer(&mut sink, b"") == 'k');
    assert!(rt; answer(&mut sink, b"cd") == 'k');
}
