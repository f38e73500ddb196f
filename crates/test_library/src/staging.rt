//! How many messages one call takes that are copied side by side.

use p3_merkle_hashing::calls::messages_per_call;

#[test]
fn a_call_takes_whole_groups_of_lanes_in_16384_bytes(rt: HostRuntime) {
    // The bytes of a message, the lanes, and the messages of a call.
    let cases = [
        (64, 8, 256),
        (16385, 8, 8),
        (0, 0, 16384),
        (16383, 2, 2),
        (8191, 1, 2),
    ];
    for (bytes, lanes, messages) in cases {
        assert_eq!(rt; messages_per_call(bytes, lanes), messages);
    }
}

#[test]
fn a_call_passes_16384_bytes_for_one_group_of_lanes_alone(rt: HostRuntime) {
    for lanes in [0usize, 1, 2, 4, 8, 16] {
        for bytes in [0usize, 1, 64, 2048, 8191, 16383, 16384, 16385, 65536] {
            let messages = messages_per_call(bytes, lanes);
            let (bytes, lanes) = (bytes.max(1), lanes.max(1));
            assert!(rt;
                messages.is_multiple_of(lanes),
                "{bytes} bytes, {lanes} lanes"
            );
            let most = lanes.saturating_mul(bytes).max(16384);
            assert!(rt;
                messages.saturating_mul(bytes) <= most,
                "{bytes} bytes, {lanes} lanes"
            );
        }
    }
}
