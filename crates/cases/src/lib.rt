#![tactic(auto)]

// Tests by name: each shows that a mistake which is easily made was not made. Descriptions and
// pictures are written as decimal bytes.
#[cfg(test)]
mod tests {
    use evaluator::{Packed, is_of};
    use pictures::pictures_find;
    use std::alloc::Global;
    use std::process::Abort;
    use std::test::*;

    const NONE: u32 = 0x100;

    fn bytes(heap: Global, text: &str) -> Result<Vec<u8>, Fail> {
        let mut bytes = Vec::new(heap);
        for word in text.split_whitespace() {
            bytes.push(word.parse::<u8>()?)?;
        }
        Ok(bytes)
    }

    // The first picture of at most so many things has so many, and these bits; what stands behind
    // them in out is left as it was.
    fn expect(
        rt: &impl Abort,
        heap: Global,
        description: &str,
        most: u32,
        things: u32,
        bits: &str,
    ) -> Result<(), Fail> {
        let description = bytes(heap, description)?;
        let bits = bytes(heap, bits)?;
        let mut work = vec![in heap; 0; 1_000_000]?;
        let mut out = [9; 32];
        assert_eq!(rt;
            pictures_find(description.as_slice(), most, &mut out, work.as_mut_slice()),
            things
        );
        for (place, byte) in out.iter().enumerate() {
            assert_eq!(rt; *byte, bits.get(place).copied().unwrap_or(9));
        }
        Ok(())
    }

    // Whether a picture of one relation is of a description.
    fn holds(rt: &HostRuntime, description: &str, things: usize, bits: &str) -> Result<bool, Fail> {
        let description = bytes(rt.alloc(), description)?;
        let bits = bytes(rt.alloc(), bits)?;
        let picture = Packed::pack(bits.as_slice(), 1, things).ok_or("no picture")?;
        Ok(is_of(description.as_slice(), &picture).ok_or("no description")?)
    }

    // Many wishes hold of an empty house.
    #[test]
    fn no_things_at_all_forgotten(rt: HostRuntime) -> Result<(), Fail> {
        expect(
            &rt,
            rt.alloc(),
            "1 23 20 2 10 0 0 23 22 21 5 0 0 2 20 2 9 0 0",
            3,
            0,
            "",
        )
    }

    // Eight things in a ring: each comes back to itself, in eight steps and not in fewer.
    #[test]
    fn once_or_more_often_cut_off_too_soon(rt: HostRuntime) -> Result<(), Fail> {
        let line = "
            0 1 0 0 0 0 0 0
            0 0 1 0 0 0 0 0
            0 0 0 1 0 0 0 0
            0 0 0 0 1 0 0 0
            0 0 0 0 0 1 0 0
            0 0 0 0 0 0 1 0
            0 0 0 0 0 0 0 1
            0 0 0 0 0 0 0 0";
        let ring = "
            0 1 0 0 0 0 0 0
            0 0 1 0 0 0 0 0
            0 0 0 1 0 0 0 0
            0 0 0 0 1 0 0 0
            0 0 0 0 0 1 0 0
            0 0 0 0 0 0 1 0
            0 0 0 0 0 0 0 1
            1 0 0 0 0 0 0 0";
        assert!(rt; !holds(&rt, "1 20 2 9 0 0", 8, line)?);
        assert!(rt; holds(&rt, "1 20 2 9 0 0", 8, ring)?);
        Ok(())
    }

    // For every thing and every thing, some pair is in both; and there is some thing. The two may be
    // the same one, and here they must be.
    #[test]
    fn two_things_that_are_the_same_one(rt: HostRuntime) -> Result<(), Fail> {
        expect(&rt, rt.alloc(), "1 23 21 2 24 24 21 5 1 0 1 1", 2, 1, "0")
    }

    // Each thing stands to some thing, and not to each thing stands some thing: inside the second
    // 'for every', the first one's thing has number 1.
    #[test]
    fn for_every_over_a_thing_spoken_of_further_out(rt: HostRuntime) -> Result<(), Fail> {
        expect(
            &rt,
            rt.alloc(),
            "1 23 24 22 24 22 21 7 1 1 7 0 0 1 0 22 24 22 24 22 21 7 1 0 7 0 0 1 1",
            2,
            2,
            "0 1 0 1",
        )
    }

    // One thing stands to one other. Two pictures of two things look alike, and the first is the one
    // in which 1 stands to 0.
    #[test]
    fn an_order_broken_by_leaving_out_pictures_that_look_alike(
        rt: HostRuntime,
    ) -> Result<(), Fail> {
        expect(
            &rt,
            rt.alloc(),
            "1 23 21 0 0 22 21 5 0 0 4 2 8 0 0",
            2,
            2,
            "0 0 1 0",
        )
    }

    // Relation 1 is firsts of relation 0, in which some pair stands and none that is in all.
    #[test]
    fn firsts_taken_for_seconds(rt: HostRuntime) -> Result<(), Fail> {
        expect(
            &rt,
            rt.alloc(),
            "2 23 21 0 0 23 22 21 5 0 0 2 23 20 0 1 10 0 0 20 10 0 0 0 1",
            2,
            2,
            "0 0 1 0 0 0 0 1",
        )
    }

    // Some pair in nothing.
    #[test]
    fn none_leaves_out_as_it_was(rt: HostRuntime) -> Result<(), Fail> {
        expect(&rt, rt.alloc(), "1 21 3", 2, NONE, "")
    }
}
