// The calls on the map at their accepted and refused neighbours, and a tape at its edges.

#[cfg(test)]
mod tests {
    use tape::write::write;
    use track::refusal::MapRefusal;
    use track::rig::Rig;

    // The number of a refusal, if there is one.
    fn refusal<T: Drop>(answer: Result<T, MapRefusal>) -> Option<u8> {
        answer.err().map(u8::from)
    }

    #[test]
    fn neighbours_of_lay(rt: HostRuntime) {
        let mut rig = Rig::new();
        assert_eq!(rt; refusal(rig.lay(127, 0, 15, 65535, 100)), None);
        assert_eq!(rt; refusal(rig.lay(128, 0, 0, 0, 0)), Some(1));
        assert_eq!(rt; refusal(rig.lay(0, 127, 0, 0, 0)), None);
        assert_eq!(rt; refusal(rig.lay(0, 128, 0, 0, 0)), Some(1));
        assert_eq!(rt; refusal(rig.lay(5, 5, 16, 0, 101)), Some(2));
        assert_eq!(rt; refusal(rig.lay(0, 1, 16, 0, 101)), Some(3));
        assert_eq!(rt; refusal(rig.lay(0, 1, 15, 0, 101)), Some(4));
        assert_eq!(rt; rig.runs().len(), 2);
    }

    #[test]
    fn the_last_run(rt: HostRuntime) {
        let mut rig = Rig::new();
        for i in 0..256u16 {
            assert_eq!(rt; rig.lay(0, 1, 0, i, 0).ok(), Some(i));
        }
        assert_eq!(rt; refusal(rig.lay(0, 1, 0, 0, 0)), Some(5));
        assert_eq!(rt; refusal(rig.strike(255)), None);
        assert_eq!(rt; refusal(rig.lay(0, 1, 0, 0, 0)), Some(5));
        assert_eq!(rt; refusal(rig.strike(256)), Some(6));
        assert_eq!(rt; refusal(rig.retime(255, 1)), Some(7));
    }

    #[test]
    fn neighbours_of_name(rt: HostRuntime) {
        let mut rig = Rig::new();
        assert_eq!(rt; refusal(rig.name(127, b"UPSTAGE ")), None);
        assert_eq!(rt; refusal(rig.name(128, b"short")), Some(1));
        assert_eq!(rt; refusal(rig.name(0, b"seven b")), Some(13));
        assert_eq!(rt; refusal(rig.name(0, b"nine byte")), Some(13));
        assert_eq!(rt;
            refusal(rig.name(0, &[32, 126, 32, 126, 32, 126, 32, 126])),
            None
        );
        assert_eq!(rt;
            refusal(rig.name(0, &[31, 32, 32, 32, 32, 32, 32, 32])),
            Some(13)
        );
        assert_eq!(rt;
            refusal(rig.name(0, &[32, 32, 32, 32, 32, 32, 32, 127])),
            Some(13)
        );
    }

    #[test]
    fn struck_and_retimed(rt: HostRuntime) {
        let mut rig = Rig::new();
        assert_eq!(rt; refusal(rig.strike(0)), Some(6));
        assert_eq!(rt; refusal(rig.lay(0, 1, 2, 30, 40)), None);
        assert_eq!(rt; refusal(rig.lay(1, 2, 3, 50, 60)), None);
        assert_eq!(rt; refusal(rig.retime(1, 70)), None);
        assert_eq!(rt; refusal(rig.retime(2, 70)), Some(6));
        assert_eq!(rt; refusal(rig.strike(0)), None);
        assert_eq!(rt; refusal(rig.strike(0)), Some(7));
        assert_eq!(rt; refusal(rig.retime(0, 5)), Some(7));
        let runs = rig.runs();
        assert!(rt; runs.len() == 2);
        assert_eq!(rt; runs[0].time, 30);
        assert!(rt; runs[0].struck);
        assert_eq!(rt; runs[1].time, 70);
        assert!(rt; !runs[1].struck);
    }

    #[test]
    fn a_tape_at_its_edges(rt: HostRuntime) {
        let mut rig = Rig::new();
        assert_eq!(rt; refusal(rig.lay(0, 1, 0, 0x011E, 40)), None);
        assert_eq!(rt; refusal(rig.lay(0, 2, 1, 20, 70)), None);
        assert_eq!(rt; refusal(rig.strike(1)), None);
        assert_eq!(rt; refusal(rig.name(3, b"UPSTAGE ")), None);
        let tape = [
            0x52, 0, 1, 0, 1, 0x1E, 40, 0x52, 0, 2, 1, 0, 20, 70, 0x58, 1, 0x4E, 3, b'U', b'P',
            b'S', b'T', b'A', b'G', b'E', b' ',
        ];
        let mut exact = [9u8; 26];
        assert_eq!(rt; write(&rig, &mut exact).ok(), Some(26));
        assert!(rt; exact == tape);
        let mut long = [9u8; 28];
        assert_eq!(rt; write(&rig, &mut long).ok(), Some(26));
        assert!(rt; &long[0..26] == &tape[0..26]);
        assert!(rt; long[26] == 9 && long[27] == 9);
        let mut short = [9u8; 25];
        assert_eq!(rt; write(&rig, &mut short).ok(), None);
        assert!(rt; short == [9u8; 25]);
    }

    #[test]
    fn equal_rigs(rt: HostRuntime) {
        let mut a = Rig::new();
        let mut b = Rig::new();
        assert!(rt; a == b);
        assert_eq!(rt; refusal(a.lay(0, 1, 2, 30, 40)), None);
        assert!(rt; a != b);
        assert_eq!(rt; refusal(b.lay(0, 1, 2, 30, 40)), None);
        assert!(rt; a == b);
        assert_eq!(rt; refusal(b.name(0, b"DOCK    ")), None);
        assert!(rt; a != b);
        assert_eq!(rt; refusal(a.name(0, b"DOCK    ")), None);
        assert_eq!(rt; refusal(a.strike(0)), None);
        assert!(rt; a != b);
    }
}
