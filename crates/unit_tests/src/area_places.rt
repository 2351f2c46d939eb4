// Where the areas of a store lie.
use cow_format::is_area_place;

// Areas 0, 1 and 2 by chunk size. The kernel's stores of 1, 8 and 16 sectors a chunk have area 1 at 34, 258 and 514.
#[test]
fn areas_lie_where_the_kernel_has_them(rt: HostRuntime) {
    for (chunk, first, second) in [(1, 34, 67), (8, 258, 515), (16, 514, 1027)] {
        assert!(rt; chunk <= 1024);
        for place in 0..=second {
            let is_area = place == 1 || place == first || place == second;
            assert!(rt; is_area_place(chunk, place) == is_area);
        }
    }
}
