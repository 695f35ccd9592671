// The controller as numbers, in the order in which they are printed.
use model::{Controller, Exchange};

pub(crate) fn numbers_of(controller: Controller) -> [u16; 24] {
    let (stage, awaited) = match controller.exchange {
        Exchange::Idle => (0, 0),
        Exchange::Waiting(word) => (1, word),
        Exchange::Done => (2, 0),
    };
    let Controller {
        times,
        lines,
        counts,
        group0,
        group1,
        device,
        ..
    } = controller;
    [
        stage,
        awaited,
        times.since,
        times.line,
        times.chosen,
        times.adopted,
        u16::from(lines.laa),
        u16::from(lines.rld),
        u16::from(lines.ls),
        u16::from(lines.slm),
        counts.fc,
        counts.ec,
        group0.pending,
        group0.mask,
        group0.status,
        u16::from(group0.frozen),
        group1.pending,
        group1.mask,
        group1.status,
        u16::from(group1.frozen),
        device.address,
        u16::from(device.set),
        device.status,
        controller.phase,
    ]
}
