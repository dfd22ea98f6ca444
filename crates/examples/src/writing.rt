// Examples of the writer that are run.
#[cfg(test)]
mod tests {
    use kind::bench::fill_bench;
    use kind::clear::Clear;
    use kind::fault::KindFault;
    use kind::kind::Kind;
    use kind::residue::Residue;
    use kind::written::WrittenKind;
    use method::bases::Bases;
    use method::halving::Halving;
    use method::method::Method;
    use method::multiplying::MultiplyingOut;
    use settle::records::write_and_check;
    use writer::calls::{claim, fold, message};
    use writer::fault::WriterFault;
    use writer::whole::whole_proof;

    const Q: u32 = 1_073_741_789;

    // One list for G and H, and the base for K.
    fn bench<K: Kind<Entry = u32>>(g: &[u32]) -> Bases<'_, K> {
        Bases {
            g,
            h: g,
            key: K::base(),
        }
    }

    // Both commitments by their entries.
    fn claim_of<K: Kind<Entry = u32>>(
        g: &[u32],
        l: &[u32],
        r: &[u32],
    ) -> Result<(u32, u32), WriterFault> {
        match claim(&bench::<K>(g), l, r) {
            Ok((z1, z2)) => Ok((z1.to_entry(), z2.to_entry())),
            Err(fault) => Err(fault),
        }
    }

    fn message_of<K: Kind<Entry = u32>>(
        g: &[u32],
        l: &[u32],
        r: &[u32],
    ) -> Result<[u32; 4], WriterFault> {
        match message(&bench::<K>(g), l, r) {
            Ok(m) => Ok([
                m.l1.to_entry(),
                m.l2.to_entry(),
                m.r1.to_entry(),
                m.r2.to_entry(),
            ]),
            Err(fault) => Err(fault),
        }
    }

    #[test]
    fn claims_and_messages(rt: HostRuntime) {
        assert_eq!(rt; claim_of::<Clear>(&[2], &[3], &[5]), Ok((6, 25)));
        assert_eq!(rt;
            claim_of::<Residue>(&[16], &[3], &[5]),
            Ok((4096, 36_175_872))
        );
        assert_eq!(rt;
            claim_of::<Clear>(&[2, 3], &[3, 5], &[7, 11]),
            Ok((21, 123))
        );
        assert_eq!(rt;
            message_of::<Clear>(&[2, 3], &[3, 5], &[7, 11]),
            Ok([10, 56, 9, 55])
        );
    }

    // The smaller number first, then G, H, l, r, then the smaller index.
    #[test]
    fn refusals(rt: HostRuntime) {
        assert_eq!(rt;
            claim_of::<Residue>(&[2, 4], &[1, Q, 0], &[Q]),
            Err(WriterFault::Size(3))
        );
        assert_eq!(rt;
            claim_of::<Residue>(&[2, 4], &[Q], &[1, 1]),
            Err(WriterFault::Length(1))
        );
        assert_eq!(rt;
            claim_of::<Residue>(&[4, 2], &[Q, 1], &[1, 1]),
            Err(WriterFault::Kind(KindFault::NotAnElement(1), 0))
        );
        assert_eq!(rt;
            claim_of::<Residue>(&[4, 16], &[1, 1], &[0, Q]),
            Err(WriterFault::NotAScalar(1))
        );
        assert_eq!(rt;
            message_of::<Residue>(&[2], &[Q], &[1]),
            Err(WriterFault::LengthOne)
        );
    }

    #[test]
    fn folds(rt: HostRuntime) {
        let mut g = [2, 3];
        let mut h = [2, 3];
        let mut l = [3, 5];
        let mut r = [7, 11];
        assert_eq!(rt;
            fold::<Clear>(&mut g, &mut h, &mut l, &mut r, Q),
            Err(WriterFault::NotAChallenge(0))
        );
        assert_eq!(rt; [g, h, l, r], [[2, 3], [2, 3], [3, 5], [7, 11]]);
        assert_eq!(rt; fold::<Clear>(&mut g, &mut h, &mut l, &mut r, 2), Ok(()));
        assert_eq!(rt; [g, h, l, r], [[7, 0], [8, 0], [13, 0], [25, 0]]);
    }

    // The record takes 37 bytes; what stands behind it, and behind the work lists' fronts of 4, stays.
    #[test]
    fn whole_proofs(rt: HostRuntime) {
        let g = [2, 3];
        let mut out = [170; 40];
        let mut elements = [9; 5];
        let mut numbers = [9; 5];
        let short = whole_proof(
            &bench::<Clear>(&g),
            &[3, 5],
            &[7, 11],
            &[0],
            &mut out[0..36],
            &mut elements,
            &mut numbers,
        );
        assert_eq!(rt; short, Err(WriterFault::Room(36)));
        let zero = whole_proof(
            &bench::<Clear>(&g),
            &[3, 5],
            &[7, 11],
            &[0],
            &mut out,
            &mut elements,
            &mut numbers,
        );
        assert_eq!(rt; zero, Err(WriterFault::NotAChallenge(0)));
        assert_eq!(rt; elements, [9; 5]);
        assert_eq!(rt; numbers, [9; 5]);
        let done = whole_proof(
            &bench::<Clear>(&g),
            &[3, 5],
            &[7, 11],
            &[2],
            &mut out,
            &mut elements,
            &mut numbers,
        );
        assert_eq!(rt; done, Ok(37));
        assert_eq!(rt;
            out,
            [
                1, 0, 0, 0, 21, 0, 0, 0, 123, 0, 0, 0, 10, 0, 0, 0, 56, 0, 0, 0, 9, 0, 0, 0, 55, 0,
                0, 0, 2, 0, 0, 0, 13, 0, 0, 0, 25, 170, 170, 170,
            ]
        );
        assert_eq!(rt; elements, [0, 0, 0, 0, 9]);
        assert_eq!(rt; numbers, [0, 0, 0, 0, 9]);
    }

    // Lists of n entries that are written and checked by a method.
    fn passes<K: WrittenKind<Entry = u32>, M: Method>(
        method: &M,
        n: usize,
        challenges: &[u32],
    ) -> bool {
        if n > 256 {
            return false;
        }
        let mut g = [0; 256];
        fill_bench::<K>(&mut g);
        let mut l = [Q - 1; 256];
        let mut r = [3; 256];
        l[0] = 5;
        r[255] = Q - 2;
        let mut out = [0; 200];
        let mut elements = [1; 512];
        let mut numbers = [0; 512];
        match write_and_check::<K, M>(
            method,
            &bench::<K>(&g[0..n]),
            &l[0..n],
            &r[0..n],
            challenges,
            &mut out,
            &mut elements,
            &mut numbers,
        ) {
            Ok(Ok(passed)) => passed,
            _ => false,
        }
    }

    #[test]
    fn the_two_ends_meet(rt: HostRuntime) {
        assert_eq!(rt; passes::<Clear, Halving>(&Halving, 1, &[]), true);
        assert_eq!(rt;
            passes::<Residue, MultiplyingOut>(&MultiplyingOut, 1, &[]),
            true
        );
        assert_eq!(rt;
            passes::<Residue, Halving>(&Halving, 16, &[2, 3, Q - 1, 1]),
            true
        );
        assert_eq!(rt;
            passes::<Clear, MultiplyingOut>(&MultiplyingOut, 256, &[1, 2, 3, 4, 5, 6, 7, Q - 1]),
            true
        );
        assert_eq!(rt;
            passes::<Residue, MultiplyingOut>(&MultiplyingOut, 256, &[9, 8, 7, 6, 5, 4, 3, 2]),
            true
        );
        assert_eq!(rt;
            passes::<Clear, Halving>(&Halving, 256, &[1, 2, 3, 4, 5, 6, 7]),
            false
        );
    }
}
