// The kernel's places and numbers.
use chunk_alloc::Alloc;

// The store's places as they are handed out, one after the other, while there are any.
fn take_all(places: &mut Alloc, count: u64) -> u64 {
    let mut last = 0;
    for _ in 0..count {
        if let Some(place) = places.take() {
            last = place;
        }
    }
    last
}

#[test]
fn skips_the_areas_as_the_kernel_does(rt: HostRuntime) {
    // chunk size, sectors, pairs, allocated, metadata, the place handed out next
    for (chunk, sectors, pairs, allocated, metadata, next) in [
        (1, 64, 0, 2, 2, 2),
        (1, 47, 31, 33, 2, 33),
        (1, 47, 32, 35, 3, 35),
        (1, 47, 33, 36, 3, 36),
        (8, 200, 0, 16, 16, 2),
        (8, 2168, 255, 2056, 16, 257),
        (8, 2168, 256, 2072, 24, 259),
        (8, 2168, 257, 2080, 24, 260),
        (16, 8432, 511, 8208, 32, 513),
        (16, 8432, 512, 8240, 48, 515),
        (16, 8432, 513, 8256, 48, 516),
    ] {
        assert!(rt; 0 < chunk && chunk <= 1024 && sectors <= 16_777_216);
        let mut places = Alloc::new(chunk, sectors);
        take_all(&mut places, pairs);
        let area = pairs / (32 * chunk as u64);
        assert!(rt; area <= places.sectors && places.next() == next);
        let usage = places.usage(area);
        assert!(rt;
            (usage.allocated, usage.total, usage.metadata) == (allocated, sectors, metadata)
        );
    }
}

#[test]
fn is_full_where_the_next_place_is_not_wholly_inside(rt: HostRuntime) {
    // chunk size, sectors, places that there are
    for (chunk, sectors, count) in [(1, 5, 3), (8, 47, 3), (8, 48, 4), (8, 55, 4), (8, 16, 0)] {
        let mut places = Alloc::new(chunk, sectors);
        for number in 0..count {
            assert!(rt; !places.is_full());
            assert!(rt; places.take() == Some(number + 2));
        }
        assert!(rt; places.is_full() && places.take().is_none());
    }
}

#[test]
fn the_next_place_may_pass_the_end_by_a_step(rt: HostRuntime) {
    let mut places = Alloc::new(1, 34);
    assert!(rt; take_all(&mut places, 40) == 33);
    assert!(rt; places.usage(0).allocated == 35);
}

#[test]
fn goes_on_after_the_greatest_of_a_loaded_store(rt: HostRuntime) {
    for (greatest, next) in [(1, 2), (9, 10), (33, 35), (35, 36)] {
        assert!(rt; Alloc::after_load(1, 64, greatest).next() == next);
    }
}

#[test]
fn goes_back_with_a_merge(rt: HostRuntime) {
    for (area, slots, next) in [(1, 3, 38), (1, 0, 35), (0, 31, 33), (0, 0, 2)] {
        let mut places = Alloc::after_load(1, 64, 42);
        assert!(rt; area <= 1 && slots < 32);
        places.after_merge(area, slots);
        assert!(rt; places.take() == Some(next));
    }
}
