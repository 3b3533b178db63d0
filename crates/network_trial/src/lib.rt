// Both makes of networks, driven through the trait with the same calls. The tests are run.

#![tactic(auto)]

#[cfg(test)]
mod tests {
    use message::{Message, Refusal};
    use network::Network;
    use packet_network::PacketNetwork;
    use ring::Ring;
    use slot_network::SlotNetwork;
    use std::process::Abort;
    use std::test::Fail;

    // What a network shows: its answer to a call, and then how many messages wait in the lane, and the oldest of them.
    #[derive(Clone, Copy, PartialEq, Eq, Debug)]
    struct Shown(Result<(), Refusal>, usize, Option<Message>);

    const BLANK: Message = Message {
        opcode: 0,
        record: 0,
        value: 0,
    };

    const SHORT: Message = Message {
        opcode: 9,
        record: 0,
        value: 0,
    };

    const LONG: Message = Message {
        opcode: 4,
        record: 63,
        value: 0x0123_4567_89ab_cdef,
    };

    fn put<N: Network>(net: &mut N, lane: usize, message: Message) -> Shown {
        let answer = net.put(lane, message);
        Shown(answer, net.waiting(lane), net.head(lane))
    }

    fn drop_head<N: Network>(net: &mut N, lane: usize) -> Shown {
        let answer = net.drop_head(lane);
        Shown(answer, net.waiting(lane), net.head(lane))
    }

    // From every offset of a lane of depth 2: a long, a short and a long packet, up to both refusals of a lane that is there.
    fn wraps<N: Network>(rt: &impl Abort, net: &mut N) {
        for _ in 0..8 {
            assert_eq!(rt; put(net, 1, LONG), Shown(Ok(()), 1, Some(LONG)));
            assert_eq!(rt; put(net, 1, SHORT), Shown(Ok(()), 2, Some(LONG)));
            assert_eq!(rt;
                put(net, 1, SHORT),
                Shown(Err(Refusal::Full), 2, Some(LONG))
            );
            assert_eq!(rt; drop_head(net, 1), Shown(Ok(()), 1, Some(SHORT)));
            assert_eq!(rt; put(net, 1, LONG), Shown(Ok(()), 2, Some(SHORT)));
            assert_eq!(rt; drop_head(net, 1), Shown(Ok(()), 1, Some(LONG)));
            assert_eq!(rt; drop_head(net, 1), Shown(Ok(()), 0, None));
            assert_eq!(rt; drop_head(net, 1), Shown(Err(Refusal::Empty), 0, None));
        }
    }

    // Lanes that are not there, and every way to be malformed; nothing is left behind.
    fn refuses<N: Network>(rt: &impl Abort, net: &mut N) {
        let absent = Shown(Err(Refusal::NoSuchTerminal), 0, None);
        assert_eq!(rt; put(net, 2, BLANK), absent);
        assert_eq!(rt; drop_head(net, 2), absent);
        let malformed = [
            BLANK,
            Message {
                opcode: 10,
                ..SHORT
            },
            Message { record: 64, ..LONG },
            Message { value: 1, ..SHORT },
        ];
        for message in malformed {
            assert_eq!(rt;
                put(net, 0, message),
                Shown(Err(Refusal::Malformed), 0, None)
            );
        }
    }

    #[test]
    fn slots(rt: HostRuntime) {
        let mut slots = [BLANK; 4];
        assert_eq!(rt; SlotNetwork::check(4, 2, 2), Ok(()));
        assert_eq!(rt; SlotNetwork::check(3, 2, 2), Err(Refusal::Unfit));
        let mut net = SlotNetwork::new(&mut slots, 2, 2);
        wraps(&rt, &mut net);
        refuses(&rt, &mut net);
    }

    #[test]
    fn packets(rt: HostRuntime) {
        let mut words = [7; 16];
        assert_eq!(rt; PacketNetwork::check(16, 2, 2), Ok(()));
        assert_eq!(rt; PacketNetwork::check(15, 2, 2), Err(Refusal::Unfit));
        let mut net = PacketNetwork::new(&mut words, 2, 2);
        wraps(&rt, &mut net);
        refuses(&rt, &mut net);
    }

    // Sizes that do not fit are refused, and what fits is made.
    #[test]
    fn over(rt: HostRuntime) -> Result<(), Fail> {
        let mut slots = [BLANK; 4];
        let mut words = [7; 16];
        assert_eq!(rt;
            SlotNetwork::over(&mut slots, 2, 3).err(),
            Some(Refusal::Unfit)
        );
        assert_eq!(rt;
            PacketNetwork::over(&mut words, 0, 2).err(),
            Some(Refusal::Unfit)
        );
        let mut by_slots = SlotNetwork::over(&mut slots, 2, 2).map_err(|_| Fail::new("slots"))?;
        wraps(&rt, &mut by_slots);
        let mut by_packets = PacketNetwork::over(&mut words, 2, 2).map_err(|_| Fail::new("words"))?;
        wraps(&rt, &mut by_packets);
        Ok(())
    }

    // A ring of no slots is full and empty at once.
    #[test]
    fn no_slots(rt: HostRuntime) {
        let mut none: [u32; 0] = [];
        let mut ring = Ring::new(&mut none);
        assert_eq!(rt; ring.put(1), Err(Refusal::Full));
        assert_eq!(rt; ring.discard(), Err(Refusal::Empty));
        assert_eq!(rt; ring.look(0), None);
    }

    // The i-th call of a long run: puts of all kinds, some malformed, and drops, to lanes that are there and one that is not.
    fn call<N: Network>(net: &mut N, i: usize) -> Shown {
        let lane = i % 3;
        if i / 24 % 2 == 0 || i % 5 == 0 {
            let message = Message {
                opcode: (i % 11) as u8,
                record: (i % 65) as u32,
                value: if i % 4 == 0 { 0 } else { u64::MAX - i as u64 },
            };
            put(net, lane, message)
        } else {
            drop_head(net, lane)
        }
    }

    #[test]
    fn alike(rt: HostRuntime) {
        let mut slots = [BLANK; 6];
        let mut words = [7; 24];
        let mut by_slots = SlotNetwork::new(&mut slots, 2, 3);
        let mut by_packets = PacketNetwork::new(&mut words, 2, 3);
        for i in 0..2000 {
            assert_eq!(rt; call(&mut by_slots, i), call(&mut by_packets, i));
        }
    }
}
