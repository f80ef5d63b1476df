// The S-box less its constant as circuits of gates over eight words, a word for each bit of a byte: each gate is one
// operation for all lanes. (J. Boyar and R. Peralta, A new combinational logic minimization technique with
// applications to cryptology, 2010.)
ghost use Rattle.std.specs.Prelude.{◌≡◌};
ghost use Rattle.she_aes.specs.Gates.{through, sums_gates, norm_gates, inverse_gates, byte_gates};
ghost use Rattle.she_aes.specs.Gates.{products, substituted_bits};

// A word for each bit of a byte, the lowest first.
pub(crate) type Planes = [u32; 8];

type Sums = [u32; 22];

type Norm = [u32; 4];

type Inverse = [u32; 9];

type Products = [u32; 18];

// The planes of what the S-box gives for each lane, less its constant.
#[inline(always)]
pub(crate) fn substituted(bits: &Planes) -> Planes
    ensures { result ≡ substituted_bits bits.now }
{
    let sums = sums_of(bits);
    let inverse = inverse_of(&norm_of(&sums));
    byte_of(&products_of(&inverse, &sums))
}

// The lowest bit of a byte, and sums of its bits.
#[inline(always)]
fn sums_of(bits: &Planes) -> Sums
    ensures { result ≡ through sums_gates bits.now }
{
    let [b0, b1, b2, b3, b4, b5, b6, b7] = *bits;
    let s14 = b4 ^ b2;
    let s13 = b7 ^ b1;
    let s9 = b7 ^ b4;
    let s8 = b7 ^ b2;
    let t0 = b6 ^ b5;
    let s1 = t0 ^ b0;
    let s4 = s1 ^ b4;
    let s12 = s13 ^ s14;
    let s2 = s1 ^ b7;
    let s5 = s1 ^ b1;
    let s3 = s5 ^ s8;
    let t1 = b3 ^ s12;
    let s15 = t1 ^ b2;
    let s20 = t1 ^ b6;
    let s6 = s15 ^ b0;
    let s10 = s15 ^ t0;
    let s11 = s20 ^ s9;
    let s7 = b0 ^ s11;
    let s17 = s10 ^ s11;
    let s19 = s10 ^ s8;
    let s16 = t0 ^ s11;
    let s21 = s13 ^ s16;
    let s18 = b7 ^ s16;
    [
        b0, s1, s2, s3, s4, s5, s6, s7, s8, s9, s10, s11, s12, s13, s14, s15, s16, s17, s18, s19,
        s20, s21,
    ]
}

// The element of the field of 16 that is inverted in place of the byte: four bits.
#[inline(always)]
fn norm_of(sums: &Sums) -> Norm
    ensures { result ≡ through norm_gates sums.now }
{
    let t2 = sums[12] & sums[15];
    let t3 = sums[3] & sums[6];
    let t4 = t3 ^ t2;
    let t5 = sums[4] & sums[0];
    let t6 = t5 ^ t2;
    let t7 = sums[13] & sums[16];
    let t8 = sums[5] & sums[1];
    let t9 = t8 ^ t7;
    let t10 = sums[2] & sums[7];
    let t11 = t10 ^ t7;
    let t12 = sums[9] & sums[11];
    let t13 = sums[14] & sums[17];
    let t14 = t13 ^ t12;
    let t15 = sums[8] & sums[10];
    let t16 = t15 ^ t12;
    let t17 = t4 ^ t14;
    let t18 = t6 ^ t16;
    let t19 = t9 ^ t14;
    let t20 = t11 ^ t16;
    let t21 = t17 ^ sums[20];
    let t22 = t18 ^ sums[19];
    let t23 = t19 ^ sums[21];
    let t24 = t20 ^ sums[18];
    [t21, t22, t23, t24]
}

// Sums of the four bits of its inverse.
#[inline(always)]
fn inverse_of(norm: &Norm) -> Inverse
    ensures { result ≡ through inverse_gates norm.now }
{
    let [t21, t22, t23, t24] = *norm;
    let t25 = t21 ^ t22;
    let t26 = t21 & t23;
    let t27 = t24 ^ t26;
    let t28 = t25 & t27;
    let t29 = t28 ^ t22;
    let t30 = t23 ^ t24;
    let t31 = t22 ^ t26;
    let t32 = t31 & t30;
    let t33 = t32 ^ t24;
    let t34 = t23 ^ t33;
    let t35 = t27 ^ t33;
    let t36 = t24 & t35;
    let t37 = t36 ^ t34;
    let t38 = t27 ^ t36;
    let t39 = t29 & t38;
    let t40 = t25 ^ t39;
    let t41 = t40 ^ t37;
    let t42 = t29 ^ t33;
    let t43 = t29 ^ t40;
    let t44 = t33 ^ t37;
    let t45 = t42 ^ t41;
    [t44, t37, t33, t43, t40, t29, t42, t45, t41]
}

// The byte that the S-box gives, less its constant, from the products.
#[inline(always)]
fn byte_of(products: &Products) -> Planes
    ensures { result ≡ through byte_gates products.now }
{
    let t46 = products[15] ^ products[16];
    let t47 = products[10] ^ products[11];
    let t48 = products[5] ^ products[13];
    let t49 = products[9] ^ products[10];
    let t50 = products[2] ^ products[12];
    let t51 = products[2] ^ products[5];
    let t52 = products[7] ^ products[8];
    let t53 = products[0] ^ products[3];
    let t54 = products[6] ^ products[7];
    let t55 = products[16] ^ products[17];
    let t56 = products[12] ^ t48;
    let t57 = t50 ^ t53;
    let t58 = products[4] ^ t46;
    let t59 = products[3] ^ t54;
    let t60 = t46 ^ t57;
    let t61 = products[14] ^ t57;
    let t62 = t52 ^ t58;
    let t63 = t49 ^ t58;
    let t64 = products[4] ^ t59;
    let t65 = t61 ^ t62;
    let t66 = products[1] ^ t63;
    let b7 = t59 ^ t63;
    let b1 = t56 ^ t62;
    let b0 = t48 ^ t60;
    let t67 = t64 ^ t65;
    let b4 = t53 ^ t66;
    let b3 = t51 ^ t66;
    let b2 = t47 ^ t65;
    let b6 = t64 ^ b4;
    let b5 = t55 ^ t67;
    [b0, b1, b2, b3, b4, b5, b6, b7]
}

// The products of the inverse's sums and the byte's.
#[inline(always)]
fn products_of(inverse: &Inverse, sums: &Sums) -> Products
    ensures { result ≡ products inverse.now sums.now }
{
    [
        inverse[0] & sums[15],
        inverse[1] & sums[6],
        inverse[2] & sums[0],
        inverse[3] & sums[16],
        inverse[4] & sums[1],
        inverse[5] & sums[7],
        inverse[6] & sums[11],
        inverse[7] & sums[17],
        inverse[8] & sums[10],
        inverse[0] & sums[12],
        inverse[1] & sums[3],
        inverse[2] & sums[4],
        inverse[3] & sums[13],
        inverse[4] & sums[5],
        inverse[5] & sums[2],
        inverse[6] & sums[9],
        inverse[7] & sums[14],
        inverse[8] & sums[8],
    ]
}
