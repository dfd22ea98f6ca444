// Examples that are run: small cases with numbers worked out by hand.
#![tactic(auto)]

mod writing;

#[cfg(test)]
mod tests {
    use bundle::fault::BundleFault;
    use bundle::records::Records;
    use kind::bench::fill_bench;
    use kind::clear::Clear;
    use kind::fault::KindFault;
    use kind::kind::Kind;
    use kind::pair::Pair;
    use kind::products::product;
    use kind::residue::Residue;
    use kind::written::WrittenKind;
    use method::bases::Bases;
    use method::fault::MethodFault;
    use method::halving::Halving;
    use method::method::Method;
    use method::multiplying::MultiplyingOut;
    use method::quick::quick_check;
    use method::table::ChallengeTable;
    use record::check::check_record;
    use record::fault::RecordFault;
    use record::part::{Part, Reader};
    use std::process::Abort;
    use std::test::Fail;

    // The entry of a product, or 0 where it is refused.
    fn entry_of<K: Kind<Entry = u32>>(entries: &[u32], scalars: &[u32]) -> u32 {
        match product::<K>(entries, scalars) {
            Ok(x) => x.to_entry(),
            Err(_) => 0,
        }
    }

    fn pair_of(entries: &[(u32, u32)], scalars: &[u32]) -> (u32, u32) {
        match product::<Pair<Residue>>(entries, scalars) {
            Ok(x) => x.to_entry(),
            Err(_) => (0, 0),
        }
    }

    fn fault_of<K: Kind<Entry = u32>>(entries: &[u32], scalars: &[u32]) -> Option<KindFault> {
        match product::<K>(entries, scalars) {
            Ok(_) => None,
            Err(fault) => Some(fault),
        }
    }

    #[test]
    fn products(rt: HostRuntime) {
        assert_eq!(rt; entry_of::<Clear>(&[2, 3], &[3, 5]), 21);
        assert_eq!(rt; entry_of::<Residue>(&[16], &[3]), 4096);
        assert_eq!(rt; entry_of::<Clear>(&[], &[]), 0);
        assert_eq!(rt; entry_of::<Residue>(&[], &[]), 1);
        assert_eq!(rt; pair_of(&[(4, 16), (16, 4)], &[2, 1]), (256, 1024));
    }

    // 6 before 11 before 12, each at the first place.
    #[test]
    fn product_refusals(rt: HostRuntime) {
        assert_eq!(rt;
            fault_of::<Residue>(&[2, 4], &[1_073_741_789]),
            Some(KindFault::Length(1))
        );
        assert_eq!(rt;
            fault_of::<Residue>(&[4, 2, 2], &[1_073_741_789, 0, 0]),
            Some(KindFault::NotAnElement(1))
        );
        assert_eq!(rt;
            fault_of::<Residue>(&[4, 4], &[0, 1_073_741_789]),
            Some(KindFault::NotAScalar(1))
        );
        assert_eq!(rt;
            fault_of::<Clear>(&[1_073_741_789], &[0]),
            Some(KindFault::NotAnElement(0))
        );
    }

    // 1 is a residue of the subgroup; 0, 2, p - 1 and p are not.
    #[test]
    fn residues(rt: HostRuntime) {
        assert!(rt; Residue::from_entry(1).is_ok());
        assert!(rt; Residue::from_entry(0).is_err());
        assert!(rt; Residue::from_entry(2).is_err());
        assert!(rt; Residue::from_entry(2_147_483_578).is_err());
        assert!(rt; Residue::from_entry(2_147_483_579).is_err());
        assert!(rt; Residue::decode(&[0, 0, 0, 4]).is_ok());
        assert!(rt; Residue::decode(&[0, 0, 4]).is_err());
    }

    fn table_fault(entries: &[u32]) -> Option<MethodFault> {
        match ChallengeTable::new(entries) {
            Ok(_) => None,
            Err(fault) => Some(fault),
        }
    }

    #[test]
    fn tables(rt: HostRuntime) {
        assert_eq!(rt; table_fault(&[1, 2_147_483_647]), None);
        assert_eq!(rt;
            table_fault(&[1, 2_147_483_648]),
            Some(MethodFault::NotAChallenge(1))
        );
        assert_eq!(rt; table_fault(&[0]), Some(MethodFault::NotAChallenge(0)));
        assert_eq!(rt;
            table_fault(&[0, 1, 1, 1, 1, 1, 1, 1, 1]),
            Some(MethodFault::TooManyRounds)
        );
    }

    // The verdict on (a, b) after one round by the challenge 2, over the bench lists.
    fn after_one_round<M: Method>(
        rt: &impl Abort,
        method: &M,
        a: u32,
        b: u32,
    ) -> Result<bool, Fail> {
        let mut bench = [0; 2];
        fill_bench::<Clear>(&mut bench);
        let bases = Bases {
            g: &bench,
            h: &bench,
            key: Clear::base(),
        };
        let z = Pair {
            a: Clear::from_entry(91)?,
            b: Clear::from_entry(525)?,
        };
        let mut elements = [7; 3];
        let mut numbers = [7; 3];
        match ChallengeTable::new(&[2]) {
            Ok(table) => {
                let passed = method.verdict(&table, z, &bases, a, b, &mut elements, &mut numbers)?;
                assert_eq!(rt; elements, [0, 0, 7]);
                assert_eq!(rt; numbers, [0, 0, 7]);
                Ok(passed)
            }
            Err(_) => Err(Fail::new("no table")),
        }
    }

    #[test]
    fn methods(rt: HostRuntime) -> Result<(), Fail> {
        assert_eq!(rt; after_one_round(&rt, &Halving, 13, 25)?, true);
        assert_eq!(rt; after_one_round(&rt, &MultiplyingOut, 13, 25)?, true);
        assert_eq!(rt; after_one_round(&rt, &Halving, 14, 25)?, false);
        assert_eq!(rt; after_one_round(&rt, &MultiplyingOut, 14, 25)?, false);
        Ok(())
    }

    const RECORD: [u8; 17] = [0, 0, 0, 0, 6, 0, 0, 0, 25, 0, 0, 0, 3, 0, 0, 0, 5];

    fn record_answer(bytes: &[u8], g: &[u32]) -> Result<bool, RecordFault> {
        let mut elements = [0; 1];
        let mut numbers = [0; 1];
        let bases = Bases {
            g,
            h: &[2],
            key: Clear::base(),
        };
        check_record::<Clear, MultiplyingOut>(
            &MultiplyingOut,
            bytes,
            &bases,
            &mut elements,
            &mut numbers,
        )
    }

    #[test]
    fn records(rt: HostRuntime) {
        assert_eq!(rt; record_answer(&RECORD, &[2]), Ok(true));
        assert_eq!(rt; record_answer(&RECORD, &[3]), Ok(false));
        assert_eq!(rt; record_answer(&[], &[2]), Err(RecordFault::Length(0)));
        assert_eq!(rt; record_answer(&[9], &[2]), Err(RecordFault::TooManyRounds));
        assert_eq!(rt; record_answer(&[1, 2], &[2]), Err(RecordFault::Length(2)));
        assert_eq!(rt;
            record_answer(&RECORD, &[2, 3]),
            Err(RecordFault::Method(MethodFault::Length(2), 0))
        );
    }

    #[test]
    fn bundles(rt: HostRuntime) {
        assert!(rt; Records::open(&[0, 0]).is_ok());
        assert_eq!(rt; open_fault(&[0]), Some(BundleFault::Directory(0)));
        assert_eq!(rt;
            open_fault(&[0, 1, 0, 0, 0, 10, 0, 0, 0, 1]),
            Some(BundleFault::Directory(0))
        );
        assert_eq!(rt; open_fault(&[0, 1, 0, 0, 0, 10, 0, 0, 0, 0]), None);
    }

    fn open_fault(file: &[u8]) -> Option<BundleFault> {
        match Records::open(file) {
            Ok(_) => None,
            Err(fault) => Some(fault),
        }
    }

    // A record without rounds: its claim, its last pair, and nothing more.
    #[test]
    fn parts(rt: HostRuntime) -> Result<(), Fail> {
        match Reader::open::<Clear>(&RECORD) {
            Ok(reader) => {
                let mut reader = reader;
                assert!(rt; matches!(reader.next(), Some(Part::Claim([0, 0, 0, 6, 0, 0, 0, 25]))));
                assert!(rt;
                    matches!(
                        reader.next(),
                        Some(Part::LastPair([0, 0, 0, 3, 0, 0, 0, 5]))
                    )
                );
                assert!(rt; matches!(reader.next(), None));
                Ok(())
            }
            Err(_) => Err(Fail::new("refused")),
        }
    }

    // l = (3, 5), r = (7, 11), G = H = (2, 3), K = 1, folded by 2: Z1 = 91, Z2 = 525, a = 13, b = 25.
    fn quick(challenge: u32, a: u32, weight: u32, room: usize) -> Result<bool, MethodFault> {
        let table = ChallengeTable::empty().with(challenge)?;
        let z = Pair {
            a: Clear::base().power(91),
            b: Clear::base().power(525),
        };
        let mut elements = [9; 2];
        let mut numbers = [9; 2];
        let room = if room < 2 { room } else { 2 };
        quick_check::<Clear>(
            &table,
            z,
            &[2, 3],
            Clear::base(),
            a,
            25,
            weight,
            &mut elements,
            &mut numbers[0..room],
        )
    }

    fn quick_passes(a: u32, weight: u32) -> bool {
        match quick(2, a, weight, 2) {
            Ok(passes) => passes,
            Err(_) => false,
        }
    }

    fn quick_fault(challenge: u32, a: u32, weight: u32, room: usize) -> Option<MethodFault> {
        match quick(challenge, a, weight, room) {
            Ok(_) => None,
            Err(fault) => Some(fault),
        }
    }

    // With a wrong by one, 7 + 25 w is 0 modulo q at one weight alone.
    #[test]
    fn quick_check_by_weight(rt: HostRuntime) {
        assert!(rt; quick_passes(13, 1));
        assert!(rt; quick_passes(13, 1_073_741_788));
        assert!(rt; !quick_passes(14, 1));
        assert!(rt; !quick_passes(14, 1_073_741_788));
        assert!(rt; quick_passes(14, 558_345_730));
        assert!(rt; !quick_passes(14, 558_345_731));
    }

    #[test]
    fn quick_check_refusals(rt: HostRuntime) {
        assert_eq!(rt;
            quick_fault(0, 13, 1, 2),
            Some(MethodFault::NotAChallenge(0))
        );
        assert_eq!(rt; quick_fault(2, 13, 0, 1), Some(MethodFault::Room(1)));
        assert_eq!(rt;
            quick_fault(2, 1_073_741_789, 0, 2),
            Some(MethodFault::NotAScalar(0))
        );
        assert_eq!(rt;
            quick_fault(2, 13, 0, 2),
            Some(MethodFault::NotAChallenge(0))
        );
        assert_eq!(rt;
            quick_fault(2, 13, 1_073_741_789, 2),
            Some(MethodFault::NotAChallenge(0))
        );
        assert_eq!(rt; quick_fault(2, 14, 5, 2), None);
    }
}
