// R-245ca: 003, Table 2 and equations 1 to 8, as data. That each table is the definition's is the promise of `data_of`.
use crate::{Constants, Data, Estimate, Pair, Term};

pub(crate) static ENTRY: Data = Data {
    numbers: Constants {
        critical_temperature: 447.57,
        critical_density: 3.92,
        gas: 8.3144621,
        molar_mass: 0.13404794,
        a1: -18.09410031,
        a2: 8.996084665,
        c0: 8.888,
        critical_pressure: 3940700.0,
        least_temperature: 196.0,
        greatest_temperature: 450.0,
        greatest_density: 13.0,
        least_pressure: 1.0,
        greatest_pressure: 10000000.0,
        top_cells: 1664,
    },
    // 003, Table 2.
    terms: [
        Term::Plain {
            n: 0.04489247,
            t: 1.0,
            d: 4,
        },
        Term::Plain {
            n: 1.526476,
            t: 0.26,
            d: 1,
        },
        Term::Plain {
            n: -2.408320,
            t: 1.0,
            d: 1,
        },
        Term::Plain {
            n: -0.5288088,
            t: 1.2,
            d: 2,
        },
        Term::Plain {
            n: 0.18222346,
            t: 0.67,
            d: 3,
        },
        Term::Damped {
            n: -1.063228,
            t: 1.92,
            d: 1,
            l: 2,
        },
        Term::Damped {
            n: -0.2231490,
            t: 2.0,
            d: 3,
            l: 2,
        },
        Term::Damped {
            n: 1.187380,
            t: 1.5,
            d: 2,
            l: 1,
        },
        Term::Damped {
            n: -0.9772383,
            t: 1.93,
            d: 2,
            l: 2,
        },
        Term::Damped {
            n: -0.02296938,
            t: 1.06,
            d: 7,
            l: 1,
        },
        Term::Bell {
            n: 1.364444,
            t: 0.17,
            d: 1,
            eta: 1.16,
            beta: 2.4,
            gamma: 1.265,
            epsilon: 0.55,
        },
        Term::Bell {
            n: -0.5080666,
            t: 3.9,
            d: 1,
            eta: 1.1,
            beta: 1.5,
            gamma: 0.42,
            epsilon: 0.724,
        },
        Term::Bell {
            n: -0.06649496,
            t: 1.0,
            d: 3,
            eta: 1.64,
            beta: 4.2,
            gamma: 0.864,
            epsilon: 0.524,
        },
        Term::Bell {
            n: -1.128359,
            t: 1.0,
            d: 3,
            eta: 13.8,
            beta: 379.0,
            gamma: 1.15,
            epsilon: 0.857,
        },
    ],
    // 003, equation 6.
    pairs: [
        Pair {
            v: 0.8843,
            u: 865.0,
        },
        Pair {
            v: 14.46,
            u: 1122.0,
        },
        Pair {
            v: 5.331,
            u: 2830.0,
        },
    ],
    // 003, equations 1 to 3.
    pressure: &[
        Estimate::Alone { n: -7.8757 },
        Estimate::Raised { n: 2.0426, t: 1.5 },
        Estimate::Raised { n: -3.3614, t: 2.6 },
        Estimate::Raised { n: -4.8567, t: 5.2 },
    ],
    liquid: &[
        Estimate::Raised { n: 4.0075, t: 0.48 },
        Estimate::Alone { n: -4.6786 },
        Estimate::Raised { n: 6.6575, t: 1.6 },
        Estimate::Raised { n: -5.096, t: 2.4 },
        Estimate::Raised { n: 2.364, t: 3.5 },
    ],
    vapour: &[
        Estimate::Raised {
            n: -4.8138,
            t: 0.505,
        },
        Estimate::Raised { n: -5.557, t: 1.65 },
        Estimate::Raised { n: -11.257, t: 2.5 },
        Estimate::Raised { n: -55.775, t: 5.5 },
        Estimate::Raised {
            n: -138.45,
            t: 12.0,
        },
    ],
};
