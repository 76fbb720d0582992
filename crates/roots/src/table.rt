// The constant words by which a polynomial moves on by eight exponents (document 01, section 3): the powers from which the table of products is made.

// POINTS[i] has at byte k, the lowest one counted 0, the power α^((i + 1) * (k + 1)).
pub const POINTS: [u64; 8] = [
    0x1D80402010080402,
    0x4C13CD741D401004,
    0x8F752D26CD3A4008,
    0x9D188FB44CCD1D10,
    0x6A9C6003B4267420,
    0x46B525608F2DCD40,
    0x5D8CB59C18751380,
    0x5F5D466A9D8F4C1D,
];
