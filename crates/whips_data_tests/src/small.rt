//! Picks and events.
use whips_flow::Event;
use whips_pick::Picker;

#[test]
fn picks_by_the_high_bits_of_each_state(rt: HostRuntime) {
    let mut picker = Picker::new(0);
    for want in [15470, 18256, 53708, 43769] {
        assert!(rt; picker.pick(65536) == want, "at {want}");
    }
}

#[test]
fn tells_the_pipeline_from_sessions(rt: HostRuntime) {
    assert!(rt; Event::Rel.is_pipeline() & !Event::SessionFetch(0, 64).is_pipeline());
}
