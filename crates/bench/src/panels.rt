// The panels of a text: each is a limit's line as in an order, the rows of a card, and an empty line.

use order::Limit;

// A panel: its limit, and its rows with the byte 10 that ends each.
#[derive(Clone, Copy)]
pub(crate) struct Panel<'a> {
    pub limit: Limit,
    pub rows: &'a [u8],
}

// The first panel of a text and what follows it; none where the text begins with none.
pub(crate) fn first_panel(text: &[u8]) -> Option<(Panel, &[u8])> {
    let end = text
        .windows(2)
        .position(|pair| matches!(pair, b"\n\n"))?
        .checked_add(1)?;
    let (panel, rest) = text.split_at_checked(end)?;
    let rest = rest.strip_prefix(b"\n")?;
    let end = panel
        .iter()
        .position(|byte| *byte == b'\n')?
        .checked_add(1)?;
    let (limit, rows) = panel.split_at_checked(end)?;
    // The line is an order without places.
    let order = order::read(limit, &mut []).ok()?;
    Some((
        Panel {
            limit: order.limit,
            rows,
        },
        rest,
    ))
}
