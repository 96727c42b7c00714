// Tests of the crate `records`, in a crate of their own since a crate with tests is proved twice.
#![tactic(auto)]

#[cfg(test)]
mod tests {
    use records::{
        Channel, Degree, Frame, Measured, Message, NoDegree, Record, RecordFault, Temperature,
    };
    use std::test::Fail;

    // The first bad word; 0 where the words are lawful.
    fn bad_word<R: Record>(words: [u32; 4]) -> u8 {
        match R::read(words) {
            Ok(_) => 0,
            Err(fault) => fault.word(),
        }
    }

    fn measured(channel: u32, bicycles: u16, walkers: u16, tenths: i32) -> Option<Measured> {
        Some(Measured {
            channel: Channel::new(channel)?,
            bicycles,
            walkers,
            temperature: Temperature::new(tenths)?,
        })
    }

    #[test]
    fn message_words(rt: HostRuntime) {
        for (words, bad) in [
            ([0, 1, 0, 0], 0),
            ([u32::MAX, 6, u32::MAX, 0], 0),
            ([0, 0, 0, 0], 2),
            ([0, 7, 0, 0], 2),
            ([0, 1, 0, 1], 4),
            ([0, 7, 0, 1], 2),
        ] {
            assert_eq!(rt; bad_word::<Message>(words), bad, "{words:?}");
        }
    }

    #[test]
    fn measured_words(rt: HostRuntime) {
        for (words, bad) in [
            ([1, 0, 0, 0], 0),
            ([64, 65_535, 65_535, 600], 0),
            ([1, 0, 0, 4_294_966_696], 0),
            ([0, 0, 0, 0], 1),
            ([65, 0, 0, 0], 1),
            ([1, 65_536, 0, 0], 2),
            ([1, 0, 65_536, 0], 3),
            ([1, 0, 0, 601], 4),
            ([1, 0, 0, 4_294_966_695], 4),
            // the lowest wins
            ([0, 65_536, 65_536, 601], 1),
            ([1, 65_536, 65_536, 601], 2),
            ([1, 0, 65_536, 601], 3),
        ] {
            assert_eq!(rt; bad_word::<Measured>(words), bad, "{words:?}");
        }
    }

    #[test]
    fn ranges(rt: HostRuntime) {
        for (number, lawful) in [(0, false), (1, true), (6, true), (7, false)] {
            match Degree::try_from(number) {
                Ok(degree) => assert!(rt; lawful && degree.number() == number),
                Err(none) => assert!(rt; !lawful && none == NoDegree(number)),
            }
        }
        for (number, lawful) in [(0, false), (1, true), (64, true), (65, false)] {
            match Channel::new(number) {
                Some(channel) => assert!(rt; lawful && channel.number() == number),
                None => assert!(rt; !lawful),
            }
        }
        for (tenths, lawful) in [(-601, false), (-600, true), (600, true), (601, false)] {
            match Temperature::new(tenths) {
                Some(temperature) => assert!(rt; lawful && temperature.tenths() == tenths),
                None => assert!(rt; !lawful),
            }
        }
    }

    #[test]
    fn temperature_words(rt: HostRuntime) -> Result<(), Fail> {
        for (tenths, word) in [
            (-600, 4_294_966_696),
            (-1, 4_294_967_295),
            (0, 0),
            (600, 600),
        ] {
            let value = measured(1, 0, 0, tenths).ok_or("out of range")?;
            assert_eq!(rt; value.write(), [1, 0, 0, word]);
            assert_eq!(rt; value.temperature.tenths(), tenths);
            assert_eq!(rt; Measured::read([1, 0, 0, word]), Ok(value));
        }
        Ok(())
    }

    #[test]
    fn message_back(rt: HostRuntime) -> Result<(), Fail> {
        let message = Message {
            maker: 513,
            object: 1027,
            degree: Degree::Fifth,
            process: 4_000_000_000,
        };
        let words = message.write();
        assert_eq!(rt; words, [33_620_995, 5, 4_000_000_000, 0]);
        let back = Message::read(words).ok().ok_or("refused")?;
        assert_eq!(rt; (back.maker, back.object), (513, 1027));
        assert_eq!(rt; (back.degree.number(), back.process), (5, 4_000_000_000));
        assert_eq!(rt; back, message);
        Ok(())
    }

    #[test]
    fn measured_back(rt: HostRuntime) -> Result<(), Fail> {
        let value = measured(64, 65_535, 12_345, -123).ok_or("out of range")?;
        let words = value.write();
        assert_eq!(rt; words, [64, 65_535, 12_345, 4_294_967_173]);
        let back = Measured::read(words).ok().ok_or("refused")?;
        assert_eq!(rt; (back.channel.number(), back.bicycles), (64, 65_535));
        assert_eq!(rt; (back.walkers, back.temperature.tenths()), (12_345, -123));
        assert_eq!(rt; back, value);
        Ok(())
    }

    #[test]
    fn numbers(rt: HostRuntime) {
        assert_eq!(rt; (Message::NUMBER, Measured::NUMBER), (1, 2));
        for (fault, word) in [
            (RecordFault::Word1, 1),
            (RecordFault::Word2, 2),
            (RecordFault::Word3, 3),
            (RecordFault::Word4, 4),
        ] {
            assert_eq!(rt; (fault.number(), fault.word()), (30, word));
        }
        let frame = Frame {
            time: 7,
            position: 9,
            body: Degree::First,
        };
        assert_eq!(rt; frame.mark(), (7, 9));
    }
}
